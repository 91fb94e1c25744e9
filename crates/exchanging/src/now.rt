// Where a call stands: at an operation of a stage's exchange, at a wait, at the clock or the tick, or at its end.
ghost use Rattle.std.specs.Prelude.{◌≡◌};
ghost use Rattle.control.specs.declared.CallNext as next;
ghost use Rattle.control.specs.declared.CallPoint as point;
ghost use Rattle.reply_points.specs.ReplyPoints as reply;
ghost use Rattle.plans.specs.Plans as plans;
ghost use Rattle.exchanging.specs.Exchanging as at;

use control::{Ending, Stage};
use plans::PauseKind;
use poll_points::{PollAt, PollKind};
use reply_points::{IoctlAt, IoctlKind};
use wlan::DriverError;

#[derive(Clone, Copy)]
pub enum CallKind {
    Exchange,
    Pause,
    Clock,
    Tick,
    Ended,
    Refused,
}

// ns: how long init still waits for the device to settle.
#[derive(Clone, Copy)]
pub struct CallNow {
    pub kind: CallKind,
    pub stage: Stage,
    pub at: IoctlAt,
    pub pause: PauseKind,
    pub ns: u32,
    pub ending: Ending,
    pub error: DriverError,
}

// Where no exchange is.
fn nowhere() -> IoctlAt
    ensures { result.t0 ≡ 0 }
{
    IoctlAt {
        kind: IoctlKind::First,
        at: PollAt {
            kind: PollKind::Interrupt,
            n: 0,
        },
        t0: 0,
        left: 0,
        n: 0,
    }
}

pub fn now_at(kind: CallKind, pause: PauseKind, ns: u32, ending: Ending, e: DriverError) -> CallNow
    ensures { (result.kind ≡ kind) × (result.pause ≡ pause) × (result.ns ≡ ns) × (result.ending ≡ ending) × (result.error ≡ e) }
{
    CallNow {
        kind: kind,
        stage: Stage::Single,
        at: nowhere(),
        pause: pause,
        ns: ns,
        ending: ending,
        error: e,
    }
}

// Made anew field by field: a copy of a whole struct keeps its padding in memory.
pub fn exchange_at(g: Stage, p: IoctlAt) -> CallNow
    ensures { at.next_of result ≡ next.CallNext.Ask (point.CallPoint.Exchange g (reply.point_of p)) }
{
    let kind = p.kind;
    let q = p.at;
    let q_kind = q.kind;
    CallNow {
        kind: CallKind::Exchange,
        stage: g,
        at: IoctlAt {
            kind: kind,
            at: PollAt {
                kind: q_kind,
                n: q.n,
            },
            t0: p.t0,
            left: p.left,
            n: p.n,
        },
        pause: PauseKind::AfterUp,
        ns: 0,
        ending: Ending::Done,
        error: DriverError::Io,
    }
}

pub fn pause_at(pause: PauseKind, ns: u32) -> CallNow
    ensures { at.next_of result ≡ next.CallNext.Ask (point.CallPoint.Pause (plans.pause_by pause ns)) }
{
    now_at(CallKind::Pause, pause, ns, Ending::Done, DriverError::Io)
}

pub fn end(e: Ending) -> CallNow
    ensures { at.next_of result ≡ next.CallNext.Ended e }
{
    now_at(CallKind::Ended, PauseKind::AfterUp, 0, e, DriverError::Io)
}

pub fn refuse(e: DriverError) -> CallNow
    ensures { at.next_of result ≡ next.CallNext.Refused e }
{
    now_at(CallKind::Refused, PauseKind::AfterUp, 0, Ending::Done, e)
}
