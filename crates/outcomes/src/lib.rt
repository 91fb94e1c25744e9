// An outcome by value: from the numbers of a run's end, and its own number and value.
#![tactic(auto)]

pub mod numbers;
pub mod outcome;
