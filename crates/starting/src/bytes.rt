// The calls with byte arguments: join, variable.
ghost use Rattle.std.specs.Prelude.{◌≡◌, true, ◌+◌, length, take};
ghost use Rattle.wlan.specs.declared.State as state;
ghost use Rattle.definition.specs.Calls.{Call};
ghost use Rattle.session_bytes.specs.Session.{is_session, session_in, with_state};
ghost use Rattle.places.specs.Places.{Holds};
ghost use Rattle.jobs.specs.Jobs.{cut};
ghost use Rattle.starting.specs.Starting as to;

use crate::Start;
use crate::kinds::{invalid_arg, single};
use control::{Ending, Job, Stage};
use jobs::jobs::join_job;
use places::write::put_failure;
use places_read::wifi_at;
use requests::Request;
use requests::numbers::is_interface;
use requests::security::{auth_of, too_long};
use wlan::{DriverError, SessionBytes, WifiState};

// The call is handed name and data cut at 2,020.
#[tactic(auto, using(crate::proofs::Laws::variable, crate::proofs::Laws::variable_bad))]
pub fn variable_start(interface: u32, name: &[u8], bytes: &[u8]) -> Start
    ensures { (st : state.State) → to.Starts (Call.write_iovar interface name.now bytes.now) (take (cut 2020 (length name.now)) name.now) (take (cut 2020 (length bytes.now)) bytes.now) st st result }
{
    if is_interface(interface) && name.len() + 1 + bytes.len() <= 2020 {
        return single(Request::Variable(interface), Ending::Done);
    }
    invalid_arg()
}

fn join_of(auth: u32, ssid: &[u8], passphrase: &[u8]) -> Job
    ensures { result ≡ to.join_of auth ssid.now passphrase.now }
{
    let a = auth_of(auth);
    join_job(a, too_long(a, passphrase.len()), 32 < ssid.len())
}

// The call is handed the SSID cut at 32 and the passphrase at 128. Where the link is down, the failure is cleared.
#[tactic(auto, using(crate::proofs::Laws::join_down, crate::proofs::Laws::join_busy, crate::proofs::Laws::join_bad, crate::proofs::Laws::held, crate::proofs::Laws::same))]
pub fn join_start(auth: u32, ssid: &[u8], passphrase: &[u8], s: &mut SessionBytes) -> Start
    requires { is_session s.old ≡ true }
    ensures starts { to.Starts (Call.wifi_connect auth ssid.now passphrase.now) (take (cut 32 (length ssid.now)) ssid.now) (take (cut 128 (length passphrase.now)) passphrase.now) (session_in s.old).st (session_in s.new).st result }
    ensures holds { Holds s.new (with_state s.old (session_in s.new).st) }
{
    if 6 <= auth {
        return invalid_arg();
    }
    match wifi_at(s) {
        WifiState::Down => {
            put_failure(s, None);
            Start::Exchange(join_of(auth, ssid, passphrase), Stage::JoinBaWsize)
        }
        WifiState::Connecting | WifiState::Connected | WifiState::Disconnecting => {
            Start::Refused(DriverError::Busy)
        }
    }
}
