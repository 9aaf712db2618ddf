// A bench terminal and the line to a scaler, without queues: each list goes through every lane in turn.
// Promises: what is typed becomes the lines and the screen that the rules define, a record that is posted goes out as they
// define, and a record of up to 1,024 bytes that is sent to the scaler is read back from its frame.
#![tactic(auto)]

pub mod desk;
pub mod scaler;
