// A level: the lanes of one module, or of the line discipline on top.
// Promises: each call does what the lane's rule says at the lane that it names, and changes no other lane; a refused call
// changes nothing. Both are proved once, for every lane that a level can be made of.
#![tactic(auto)]

pub mod discipline;
pub mod module;
