// The outcome that the numbers tell, for who takes it by value.
ghost use Rattle.std.specs.Prelude.{◌≡◌, ◌<◌, Ok};
ghost use Rattle.run_end.specs.RunEnd.{Tells};
ghost use Rattle.outcomes.specs.Outcomes as to;
ghost use Rattle.wlan.specs.Results.{Outcome};

use connect_failure::failure_of;
use run_end::{EndKind, RunEnd};
use wlan::{DriverError, Outcome, Refusal, Success, WifiConnectFailure, WlanPollResult};

fn narrow8(x: u64) -> u8
    ensures { x < 256 → result ≡ x }
{
    (x % 256) as u8
}

fn narrow16(x: u64) -> u16
    ensures { x < 65536 → result ≡ x }
{
    (x % 65536) as u16
}

fn narrow32(x: u64) -> u32
    ensures { x < 4294967296 → result ≡ x }
{
    (x % 4294967296) as u32
}

fn poll_by(v: u64, f: Option<WifiConnectFailure>) -> WlanPollResult
    ensures { result ≡ to.poll_by v f }
{
    match f {
        None => {
            if v == 0 {
                return WlanPollResult::None;
            }
            WlanPollResult::Rx
        }
        Some(x) => WlanPollResult::ConnectFailed(x),
    }
}

fn ok(x: Success) -> Outcome
    ensures { result ≡ Ok x }
{
    Ok(x)
}

fn error(e: DriverError) -> Outcome
    ensures { result ≡ to.error e }
{
    Err(Refusal::Driver(e))
}

fn outcome_by(k: EndKind, v: u64, f: Option<WifiConnectFailure>) -> Outcome
    ensures { to.Small k v → result ≡ to.outcome_by k v f }
{
    match k {
        EndKind::Done => ok(Success::Done),
        EndKind::Polled => ok(Success::Polled(poll_by(v, f))),
        EndKind::Taken => ok(Success::Taken(narrow16(v))),
        EndKind::Mac => ok(Success::Mac(v)),
        EndKind::Word => ok(Success::Word(narrow32(v))),
        EndKind::InvalidArg => error(DriverError::InvalidArg),
        EndKind::Timeout => error(DriverError::Timeout),
        EndKind::Io => error(DriverError::Io),
        EndKind::Busy => error(DriverError::Busy),
        EndKind::WouldBlock => error(DriverError::WouldBlock),
        EndKind::NoMem => error(DriverError::NoMem),
        EndKind::Fault => error(DriverError::Fault(narrow8(v))),
        EndKind::EventHeader => error(DriverError::EventHeader),
        EndKind::PastBuffer => error(DriverError::PastBuffer),
        EndKind::Unrecorded => Err(Refusal::Unrecorded),
        EndKind::WrongAnswer => Err(Refusal::WrongAnswer),
        EndKind::LogFull => Err(Refusal::LogFull),
        EndKind::BufferLength => Err(Refusal::BufferLength),
    }
}

pub fn outcome_of(r: RunEnd) -> Outcome
    ensures { (o : Outcome) → Tells r o → result ≡ o }
{
    let k = r.kind;
    let f = r.failure;
    outcome_by(k, r.value, failure_of(f))
}
