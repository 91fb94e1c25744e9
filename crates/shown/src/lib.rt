// What a call leaves besides the player's lines, as numbers: the observer prints them.
#![tactic(auto)]

pub mod print;
pub mod report;
pub mod sum;
