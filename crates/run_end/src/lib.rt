// How a call ended, as numbers that go through no memory in pieces.
#![tactic(auto)]

ghost use Rattle.std.specs.Prelude.{◌≡◌, None, Ok, Err};
ghost use Rattle.wlan.specs.declared.DriverError.{DriverError};
ghost use Rattle.wlan.specs.declared.Refusal.{Refusal};
ghost use Rattle.wlan.specs.declared.Success.{Success};
ghost use Rattle.connect_failure.specs.Parts.{failure_parts};
ghost use Rattle.run_end.specs.declared.EndKind.{EndKind};
ghost use Rattle.run_end.specs.RunEnd as to;

use connect_failure::{FailureParts, failure_parts};
use wlan::{DriverError, Success, WifiConnectFailure, WlanPollResult};

// How a call ended, but for the numbers that go with it.
#[derive(Clone, Copy)]
pub enum EndKind {
    Done,
    Polled,
    Taken,
    Mac,
    Word,
    InvalidArg,
    Timeout,
    Io,
    Busy,
    WouldBlock,
    NoMem,
    Fault,
    EventHeader,
    PastBuffer,
    Unrecorded,
    WrongAnswer,
    LogFull,
    BufferLength,
}

// back: all is to be as before the call; failure: the failed join that a poll reports.
#[derive(Clone, Copy)]
pub struct RunEnd {
    pub back: bool,
    pub kind: EndKind,
    pub value: u64,
    pub failure: FailureParts,
    pub len: usize,
}

// A poll's value, and the failed join that it reports.
#[derive(Clone, Copy)]
pub struct PollReport {
    pub value: u64,
    pub failure: FailureParts,
}

pub fn no_failure() -> FailureParts
    ensures { result ≡ failure_parts None }
{
    FailureParts {
        tag: 0,
        status: 0,
        reason: 0,
    }
}

fn value_end(kind: EndKind, v: u64, len: usize) -> RunEnd
    ensures { result ≡ to.numbers kind v (failure_parts None) len }
{
    RunEnd {
        back: false,
        kind: kind,
        value: v,
        failure: no_failure(),
        len: len,
    }
}

// 7, with the fault's place.
pub fn fault_end(place: u64, len: usize) -> RunEnd
    ensures { result ≡ to.end_by (Err (Refusal.Driver (DriverError.Fault place))) len }
{
    value_end(EndKind::Fault, place, len)
}

pub fn error_end(e: DriverError, len: usize) -> RunEnd
    ensures { (result ≡ to.end_by (Err (Refusal.Driver e)) len) × to.Fits (Err (Refusal.Driver e)) }
{
    match e {
        DriverError::InvalidArg => value_end(EndKind::InvalidArg, 0, len),
        DriverError::Timeout => value_end(EndKind::Timeout, 0, len),
        DriverError::Io => value_end(EndKind::Io, 0, len),
        DriverError::Busy => value_end(EndKind::Busy, 0, len),
        DriverError::WouldBlock => value_end(EndKind::WouldBlock, 0, len),
        DriverError::NoMem => value_end(EndKind::NoMem, 0, len),
        DriverError::Fault(p) => value_end(EndKind::Fault, p as u64, len),
        DriverError::EventHeader => value_end(EndKind::EventHeader, 0, len),
        DriverError::PastBuffer => value_end(EndKind::PastBuffer, 0, len),
    }
}

pub fn done_end(len: usize) -> RunEnd
    ensures { result ≡ to.end_by (Ok Success.Done) len }
{
    value_end(EndKind::Done, 0, len)
}

pub fn polled_end(p: PollReport, len: usize) -> RunEnd
    ensures { result ≡ to.numbers EndKind.Polled p.value p.failure len }
{
    let failure = p.failure;
    RunEnd {
        back: false,
        kind: EndKind::Polled,
        value: p.value,
        failure: failure,
        len: len,
    }
}

// A poll that reports no failed join.
pub fn unfailed(v: u64) -> PollReport
    ensures { result ≡ to.unfailed v }
{
    PollReport {
        value: v,
        failure: no_failure(),
    }
}

// A poll that reports f.
pub fn failed_join(f: Option<WifiConnectFailure>) -> PollReport
    ensures { result ≡ to.failed_join f }
{
    PollReport {
        value: 2,
        failure: failure_parts(f),
    }
}

fn report_of(p: WlanPollResult) -> PollReport
    ensures { result ≡ to.report_of p }
{
    match p {
        WlanPollResult::None => unfailed(0),
        WlanPollResult::Rx => unfailed(1),
        WlanPollResult::ConnectFailed(f) => failed_join(Some(f)),
    }
}

pub fn success_end(x: Success, len: usize) -> RunEnd
    ensures { (result ≡ to.end_by (Ok x) len) × to.Fits (Ok x) }
{
    match x {
        Success::Done => done_end(len),
        Success::Polled(p) => polled_end(report_of(p), len),
        Success::Taken(n) => value_end(EndKind::Taken, n as u64, len),
        Success::Mac(n) => value_end(EndKind::Mac, n, len),
        Success::Word(n) => value_end(EndKind::Word, n as u64, len),
    }
}

// The refusal's number, 0 for success.
pub fn refusal_number(k: EndKind) -> u32
    ensures { result ≡ to.number_by k }
{
    match k {
        EndKind::Done => 0,
        EndKind::Polled => 0,
        EndKind::Taken => 0,
        EndKind::Mac => 0,
        EndKind::Word => 0,
        EndKind::InvalidArg => 1,
        EndKind::Timeout => 2,
        EndKind::Io => 3,
        EndKind::Busy => 4,
        EndKind::WouldBlock => 5,
        EndKind::NoMem => 6,
        EndKind::Fault => 7,
        EndKind::EventHeader => 10,
        EndKind::PastBuffer => 11,
        EndKind::Unrecorded => 8,
        EndKind::WrongAnswer => 9,
        EndKind::LogFull => 12,
        EndKind::BufferLength => 13,
    }
}
