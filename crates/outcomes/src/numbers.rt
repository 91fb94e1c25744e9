// The number of each refusal, and the value that goes with it or with a success: `wlan/specs/Outcome.antt`.
ghost use Rattle.std.specs.Prelude.{◌≡◌};
ghost use Rattle.wlan.specs.Outcome as to;

use wlan::{DriverError, Outcome, Refusal, Success, WlanPollResult};

pub fn error_number(e: DriverError) -> u32
    ensures { result ≡ to.error_number e }
{
    match e {
        DriverError::InvalidArg => 1,
        DriverError::Timeout => 2,
        DriverError::Io => 3,
        DriverError::Busy => 4,
        DriverError::WouldBlock => 5,
        DriverError::NoMem => 6,
        DriverError::Fault(_) => 7,
        DriverError::EventHeader => 10,
        DriverError::PastBuffer => 11,
    }
}

// The refusal's number in document 01.
pub fn number_of(r: Refusal) -> u32
    ensures { result ≡ to.number_of r }
{
    match r {
        Refusal::Driver(e) => error_number(e),
        Refusal::Unrecorded => 8,
        Refusal::WrongAnswer => 9,
        Refusal::LogFull => 12,
        Refusal::BufferLength => 13,
    }
}

// The refusal's number, 0 for success.
pub fn refusal_of(o: Outcome) -> u32
    ensures { result ≡ to.refusal_of o }
{
    match o {
        Ok(_) => 0,
        Err(r) => number_of(r),
    }
}

// A fault's place, else 0.
pub fn error_value(e: DriverError) -> u64
    ensures { result ≡ to.error_value e }
{
    match e {
        DriverError::InvalidArg => 0,
        DriverError::Timeout => 0,
        DriverError::Io => 0,
        DriverError::Busy => 0,
        DriverError::WouldBlock => 0,
        DriverError::NoMem => 0,
        DriverError::Fault(p) => p as u64,
        DriverError::EventHeader => 0,
        DriverError::PastBuffer => 0,
    }
}

pub fn refusal_value(r: Refusal) -> u64
    ensures { result ≡ to.refusal_value r }
{
    match r {
        Refusal::Driver(e) => error_value(e),
        Refusal::Unrecorded => 0,
        Refusal::WrongAnswer => 0,
        Refusal::LogFull => 0,
        Refusal::BufferLength => 0,
    }
}

pub fn poll_value(p: WlanPollResult) -> u64
    ensures { result ≡ to.poll_value p }
{
    match p {
        WlanPollResult::None => 0,
        WlanPollResult::Rx => 1,
        WlanPollResult::ConnectFailed(_) => 2,
    }
}

// The value, 0 where there is none.
pub fn success_value(x: Success) -> u64
    ensures { result ≡ to.success_value x }
{
    match x {
        Success::Done => 0,
        Success::Polled(p) => poll_value(p),
        Success::Taken(n) => n as u64,
        Success::Mac(n) => n,
        Success::Word(n) => n as u64,
    }
}

pub fn value_of(o: Outcome) -> u64
    ensures { result ≡ to.value_of o }
{
    match o {
        Ok(x) => success_value(x),
        Err(r) => refusal_value(r),
    }
}
