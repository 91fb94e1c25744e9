// `poll` on a session's bytes: where it stands, and what it does when nothing more is there or a frame came.
#![tactic(auto)]

ghost use Rattle.std.specs.Prelude.{◌≡◌, Bool, true};
ghost use Rattle.control.specs.Poll as to;
ghost use Rattle.session_bytes.specs.Session.{is_session, session_in};
ghost use Rattle.poll_report.specs.PollReport.{Quiet};
ghost use Rattle.poll_now.specs.declared.NowKind as now;
ghost use Rattle.poll_now.specs.PollNow as at;

use places::write::put_frame;
use places_read::{tick_at, wifi_at};
use poll_points::{PollAt, PollKind, poll_from};
use poll_report::report;
use run_end::{PollReport, unfailed};
use wlan::{PendingBuf, SessionBytes, WifiState};

#[derive(Clone, Copy)]
pub enum NowKind {
    Ask,
    Tick,
    Over,
    HeaderBeyond,
}

// Where a poll stands: at an operation of the device's poll, at the tick (started: the disconnect began at this one), or at its end.
#[derive(Clone, Copy)]
pub struct PollNow {
    pub kind: NowKind,
    pub at: PollAt,
    pub started: u64,
    pub report: PollReport,
}

pub fn now_at(kind: NowKind, started: u64, report: PollReport) -> PollNow
    ensures { (result.kind ≡ kind) × (result.started ≡ started) × (result.report ≡ report) }
{
    PollNow {
        kind: kind,
        at: PollAt {
            kind: PollKind::Interrupt,
            n: 0,
        },
        started: started,
        report: report,
    }
}

fn over(report: PollReport) -> PollNow
    ensures { (result.kind ≡ now.NowKind.Over) × (result.report ≡ report) }
{
    now_at(NowKind::Over, 0, report)
}

pub fn asks(p: PollAt) -> PollNow
    ensures { (result.kind ≡ now.NowKind.Ask) × (result.at ≡ p) }
{
    PollNow {
        kind: NowKind::Ask,
        at: p,
        started: 0,
        report: unfailed(0),
    }
}

// A poll of the device begins.
pub fn polling(s: &SessionBytes) -> PollNow
    requires { is_session s.now ≡ true }
    ensures { (h : Bool) → Quiet (at.NextIs result) s.now s.now h (to.polling_step (session_in s.now).st h) }
{
    asks(poll_from(s))
}

// The tick at which a disconnect began that goes on.
fn disconnect_tick(s: &SessionBytes) -> Option<u64>
    requires { is_session s.now ≡ true }
    ensures { result ≡ at.disconnect_tick (session_in s.now).st.link.state (session_in s.now).st.link.disconnect_started_tick }
{
    let state = wifi_at(s);
    match state {
        WifiState::Down => None,
        WifiState::Connecting => None,
        WifiState::Connected => None,
        WifiState::Disconnecting => tick_at(s),
    }
}

// Nothing more is there.
pub fn nothing(s: &mut SessionBytes) -> PollNow
    requires { is_session s.old ≡ true }
    ensures { at.Quiets s.old s.new result (to.nothing_step (session_in s.old).st) }
{
    let t = disconnect_tick(s);
    match t {
        None => over(report(s)),
        Some(n) => now_at(NowKind::Tick, n, unfailed(0)),
    }
}

// A frame below 14 bytes is dropped.
pub fn frame(s: &mut SessionBytes, offset: u16, len: u16) -> PollNow
    requires { is_session s.old ≡ true }
    ensures { at.Quiets s.old s.new result (to.frame_step (session_in s.old).st offset len) }
{
    if len < 14 {
        return polling(s);
    }
    put_frame(
        s,
        Some(PendingBuf {
            offset: offset,
            len: len,
        }),
    );
    over(unfailed(1))
}
