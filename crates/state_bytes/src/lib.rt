// The state as bytes that a caller keeps between calls: what they mean, and what its parts are as numbers.
#![tactic(auto)]

pub mod numbers;
pub mod parts;
