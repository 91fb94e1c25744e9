// The entries of cyw43_c under their names for C: the archive that a C program links. Each has the clauses of the entry that it calls.
#![tactic(auto)]

pub mod entries;
pub mod joins;
pub mod settings;
