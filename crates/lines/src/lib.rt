// The player's input and lines: calls read from standard input, and what comes of them as text.
#![tactic(auto)]

pub mod input;
pub mod room;
pub mod text;
