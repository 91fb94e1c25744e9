// The fourteen calls with the scan list in a lent table of 32 records.
#![tactic(auto)]

pub mod table;
