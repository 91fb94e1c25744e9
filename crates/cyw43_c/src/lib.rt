// Entries for C, over the proved calls. The session lives in 1,393 bytes that the caller lends; include/cyw43.h has each contract
// in words. Nothing is asked of a caller: bytes that are no session's are refused with 100, and all is as it was.
#![tactic(auto)]

pub mod entries;
pub mod joins;
pub mod settings;
