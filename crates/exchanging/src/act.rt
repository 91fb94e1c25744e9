// What a call does next is done.
ghost use Rattle.std.specs.Prelude.{◌≡◌, Bool, true, length};
ghost use Rattle.definition.specs.Bus.{Bytes};
ghost use Rattle.wlan.specs.declared.DriverError as error;
ghost use Rattle.wlan.specs.declared.WifiState as wifi;
ghost use Rattle.control.specs.declared.Before.{Before};
ghost use Rattle.control.specs.declared.Ending as ending;
ghost use Rattle.control.specs.declared.Job as job;
ghost use Rattle.control.specs.Meaning.{laid_before};
ghost use Rattle.control.specs.Steps.{lay_before, ends, refuses, linked_state};
ghost use Rattle.control.specs.Exchange as to;
ghost use Rattle.effects.specs.Args.{args_of};
ghost use Rattle.session_bytes.specs.Session.{is_session, session_in};
ghost use Rattle.undo.specs.Undo.{Kept};
ghost use Rattle.plans.specs.Plans as plans;
ghost use Rattle.exchanging.specs.Exchanging as at;

use crate::begin::{begin, connecting};
use crate::now::{CallKind, CallNow, end, now_at, pause_at, refuse};
use control::{Ending, Job, Lens};
use hearing::clear;
use laying::lay_payload;
use places::write::{put_marks, put_tick, put_wifi};
use plans::{PauseKind, Plan, PlanKind};
use requests::Request;
use wlan::{DriverError, ScanMarks, SessionBytes, UndoBytes, WifiAuth, WifiState, WorkBuffer};

fn refuse_join(s: &mut SessionBytes, a: WifiAuth) -> CallNow
    requires { is_session s.old ≡ true }
    ensures { (h : Bool) (before : Before) → at.Sets s.old s.new result h (lay_before before) (refuses (linked_state (plans.connecting_by a (session_in s.old).st) wifi.WifiState.Down) h before error.DriverError.InvalidArg) }
{
    connecting(s, a);
    put_wifi(s, WifiState::Down);
    refuse(DriverError::InvalidArg)
}

fn lay_key(
    s: &mut SessionBytes,
    undo: &mut UndoBytes,
    buf: &mut WorkBuffer,
    first: &[u8],
    second: &[u8],
) -> CallNow
    requires s_value { is_session s.old ≡ true }
    requires kept { Kept undo.old }
    ensures { (j : job.Job) (h : Bool) (before : Before) (c₀ : Bytes) → buf.old ≡ laid_before before c₀ → at.Acts (args_of j first.now second.now) undo.old undo.new s.old s.new c₀ buf.old buf.new result h (plans.key_laid (session_in s.old).st h before) }
{
    lay_payload(undo, buf, Request::Key, first, second);
    pause_at(PauseKind::BeforeKey, 0)
}

fn scanned(s: &mut SessionBytes) -> CallNow
    requires { is_session s.old ≡ true }
    ensures { (h : Bool) (before : Before) → at.Clears s.old s.new result h (lay_before before) (to.scan_step (session_in s.old).st h before) }
{
    let marks = ScanMarks {
        scan_done: false,
        scan_in_progress: true,
    };
    put_marks(s, marks);
    clear(s);
    end(Ending::Done)
}

// leave's end.
fn disconnect(s: &mut SessionBytes, t: u64) -> CallNow
    requires { is_session s.old ≡ true }
    ensures { (h : Bool) (before : Before) → at.Sets s.old s.new result h (lay_before before) (ends (to.disconnecting_state (session_in s.old).st t) h before ending.Ending.Done) }
{
    put_wifi(s, WifiState::Disconnecting);
    put_tick(s, Some(t));
    end(Ending::Done)
}

fn refuse_down(s: &mut SessionBytes, e: DriverError) -> CallNow
    requires { is_session s.old ≡ true }
    ensures { (h : Bool) (before : Before) → at.Sets s.old s.new result h (lay_before before) (refuses (linked_state (session_in s.old).st wifi.WifiState.Down) h before e) }
{
    put_wifi(s, WifiState::Down);
    refuse(e)
}

// Where a plan that changes nothing leaves the call.
fn kind_of(k: PlanKind) -> CallKind
    ensures { result ≡ at.kind_of k }
{
    match k {
        PlanKind::Pause => CallKind::Pause,
        PlanKind::Clock => CallKind::Clock,
        PlanKind::Tick => CallKind::Tick,
        PlanKind::Give => CallKind::Ended,
        _ => CallKind::Refused,
    }
}

// buf has `before` laid already.
pub fn act(
    j: Job,
    l: Lens,
    f: Plan,
    s: &mut SessionBytes,
    undo: &mut UndoBytes,
    buf: &mut WorkBuffer,
    first: &[u8],
    second: &[u8],
) -> CallNow
    requires s_value { is_session s.old ≡ true }
    requires kept { Kept undo.old }
    ensures { (h : Bool) (before : Before) (c₀ : Bytes) → buf.old ≡ laid_before before c₀ → at.Acts (args_of j first.now second.now) undo.old undo.new s.old s.new c₀ buf.old buf.new result h (plans.planned f j l (session_in s.old).st h before) }
{
    let k = f.kind;
    match k {
        PlanKind::Begin => {
            let how = f.begin;
            let g = f.stage;
            begin(j, l, how, g, s, undo, buf, first, second)
        }
        PlanKind::LayKey => lay_key(s, undo, buf, first, second),
        PlanKind::LongSsid => {
            let a = j.auth;
            refuse_join(s, a)
        }
        PlanKind::Scan => scanned(s),
        PlanKind::Disconnect => disconnect(s, f.t),
        PlanKind::RefuseDown => {
            let e = f.error;
            refuse_down(s, e)
        }
        PlanKind::Done => end(Ending::Done),
        _ => {
            let pause = f.pause;
            let given = j.ending;
            let e = f.error;
            now_at(kind_of(k), pause, f.ns, given, e)
        }
    }
}
