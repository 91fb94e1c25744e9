// What every C entry hands back: value and log length, and the state of a call that leaves the scan list.
#![tactic(auto)]

pub mod hand;
