// A call's exchanges on a session's bytes, one after the other. What a step lays is laid in the work buffer at once, and kept before that.
#![tactic(auto)]

pub mod act;
pub mod begin;
pub mod now;
