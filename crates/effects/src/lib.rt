// What passes between control, which is by value, and the buffers.
#![tactic(auto)]

pub mod args;
pub mod land;
pub mod outcome;
