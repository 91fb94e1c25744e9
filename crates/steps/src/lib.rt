// A call's stages: their requests, and which errors end one.
#![tactic(auto)]

pub mod stages;
pub mod steps;
