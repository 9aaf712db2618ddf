// A list of items with a fixed capacity that lies in its own record: what a driver without memory handed over keeps its items in.
// Promises: it does what the driver's interface says of such a list, and a refused call changes nothing.
#![tactic(auto)]

pub mod inline;
