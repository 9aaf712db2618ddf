// The drivers that there are: each is the serial driver over lists of one kind.
// Promises: the lay out of a UART takes three pieces of memory handed over, all or none; a loop driver needs no memory and
// begins empty.
#![tactic(auto)]

pub mod looping;
#[cfg(test)]
mod tests;
pub mod uart;
