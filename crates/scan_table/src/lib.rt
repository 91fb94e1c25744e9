// The scan list in a lent table of records: what the caller lends is a table and a count.
#![tactic(auto)]

pub mod list;
pub mod table;
