// A session, the state and the scan list, as 1,393 bytes: what they mean, and a record's.
#![tactic(auto)]

pub mod list;
pub mod session;
