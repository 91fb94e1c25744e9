// `poll` on a session's bytes: its value at its end.
#![tactic(auto)]

ghost use Rattle.std.specs.Prelude.{◌≡◌, true, Ok};
ghost use Rattle.control.specs.Poll as to;
ghost use Rattle.session_bytes.specs.Session.{is_session, session_in, with_state};
ghost use Rattle.places.specs.Places.{Holds};
ghost use Rattle.poll_report.specs.PollReport as at;

use handling::link::released;
use places::write::{put_failure, put_link};
use places_read::{failure_at, link_at, wifi_at};
use run_end::{PollReport, failed_join, unfailed};
use send::elapsed_us;
use wlan::{SessionBytes, WifiConnectFailure, WifiState};

// The failed join that is to be reported: in Down alone.
fn reportable(s: &SessionBytes) -> Option<WifiConnectFailure>
    requires { is_session s.now ≡ true }
    ensures { result ≡ at.reportable (session_in s.now).st.link.state (session_in s.now).st.link.connect_failure }
{
    let state = wifi_at(s);
    match state {
        WifiState::Down => failure_at(s),
        WifiState::Connecting => None,
        WifiState::Connected => None,
        WifiState::Disconnecting => None,
    }
}

// The poll's value at its end. A failure is reported once.
pub fn report(s: &mut SessionBytes) -> PollReport
    requires { is_session s.old ≡ true }
    ensures { at.Reports s.old s.new result (to.report_step (session_in s.old).st) }
{
    let f = reportable(s);
    match f {
        None => unfailed(0),
        Some(_) => {
            put_failure(s, None);
            failed_join(f)
        }
    }
}

// A disconnect is over after 1,000 ticks.
fn timed_out(s: &mut SessionBytes, started: u64, tick: u64)
    requires { is_session s.old ≡ true }
    ensures { Holds s.new (with_state s.old (to.timed_out_state (session_in s.old).st started tick)) }
{
    if elapsed_us(started, tick) < 1000 {
        return;
    }
    put_link(s, released(link_at(s)));
}

// The tick is t; the poll's value.
pub fn poll_tick(s: &mut SessionBytes, started: u64, t: u64) -> PollReport
    requires { is_session s.old ≡ true }
    ensures { at.Reports s.old s.new result (to.poll_tick (session_in s.old).st started (Ok t)) }
{
    timed_out(s, started, t);
    report(s)
}
