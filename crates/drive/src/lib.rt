// Whole lists through a lane: what a program does that has no queues.
// Promises: a list comes out as the lane's rule says, in order, and the lane is left in the state after it.
#![tactic(auto)]

pub mod plain;
pub mod replying;
