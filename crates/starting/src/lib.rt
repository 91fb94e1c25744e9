// How each call begins on a session's bytes: its first request, or that it is over without one. Of byte arguments only the lengths are looked at.
#![tactic(auto)]

pub mod bytes;
pub mod calls;
pub mod kinds;
pub mod plain;

use control::{Job, Stage};
use wlan::DriverError;

// A call's exchanges, from a stage on; or the call is over at once.
#[derive(Clone, Copy)]
pub enum Start {
    Exchange(Job, Stage),
    Done,
    Refused(DriverError),
}
