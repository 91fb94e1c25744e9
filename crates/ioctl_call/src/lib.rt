// An exchange over its recording, on a session's bytes: the loop over its operations.
#![tactic(auto)]

pub mod asks;

ghost use Rattle.std.specs.Prelude.{◌≡◌, true, false, ◌<◌, ◌≤◌, length};
ghost use Rattle.definition.specs.Prog.{World};
ghost use Rattle.control.specs.declared.Stage as stage;
ghost use Rattle.control.specs.Meaning.{Args};
ghost use Rattle.session_bytes.specs.Session.{is_session};
ghost use Rattle.undo.specs.Undo.{Kept};
ghost use Rattle.asking.specs.Asking.{asked_of};
ghost use Rattle.plans.specs.Plans as plans;
ghost use Rattle.turning.specs.Turning as turning;
ghost use Rattle.ioctl_call.specs.IoctlCall as to;

use crate::asks::ioctl_ask;
use asking::{Asked, Back};
use reply_points::{IoctlAt, IoctlNow, IoctlNowKind, ioctl_fault};
use replying::ioctl_answer;
use turning::is_back;
use wlan::{DriverError, SessionBytes, UndoBytes, WorkBuffer};

// Its last step, and what its last operation was answered.
#[derive(Clone, Copy)]
pub struct IoctlTurned {
    pub on: bool,
    pub now: IoctlNow,
    pub asked: Asked,
}

fn is_ask(k: IoctlNowKind) -> bool
    ensures { result ≡ plans.is_ask k }
{
    match k {
        IoctlNowKind::Ask => true,
        IoctlNowKind::Done => false,
        IoctlNowKind::Refused => false,
    }
}

fn ioctl_turned(on: bool, n: IoctlNow, a: Asked) -> IoctlTurned
    ensures { (result.on ≡ on) × (result.now ≡ n) × (result.asked ≡ a) }
{
    IoctlTurned {
        on: on,
        now: n,
        asked: a,
    }
}

fn answered(n: IoctlNow, a: Asked) -> IoctlTurned
    ensures { (result.on ≡ plans.is_ask n.kind) × (result.now ≡ n) × (result.asked ≡ a) }
{
    let k = n.kind;
    ioctl_turned(is_ask(k), n, a)
}

// Before its first operation.
fn ioctl_from(p: IoctlAt, pos: usize, len: usize) -> IoctlTurned
    ensures { (result.on ≡ true) × (result.now.kind ≡ IoctlNowKind.Ask) × (result.now.at ≡ p) × (result.asked ≡ asked_of Back.No false 0 pos len) }
{
    IoctlTurned {
        on: true,
        now: IoctlNow {
            kind: IoctlNowKind::Ask,
            at: p,
            offset: 0,
            count: 0,
            error: DriverError::Io,
        },
        asked: Asked {
            back: Back::No,
            fault: false,
            value: 0,
            pos: pos,
            len: len,
        },
    }
}

// One operation, its answer, and the step that follows; n: how long the payload is.
fn ioctl_turn(
    n: u16,
    p: IoctlAt,
    pos: usize,
    len: usize,
    s: &mut SessionBytes,
    undo: &mut UndoBytes,
    rec: &[u32],
    log: &mut [u32],
    buf: &mut WorkBuffer,
) -> IoctlTurned
    requires s_value { is_session s.old ≡ true }
    requires kept_2 { Kept undo.old }
    ensures on { (x : Args) (g : stage.Stage) → to.Fits x g n → (e : World) → to.Stood x g e (to.asked_at x g e rec.now log.old pos len p s.old buf.old) rec.now result log.new s.new buf.new }
    ensures asks { result.on ≡ to.on_of result }
    ensures held { is_session s.new ≡ true }
    ensures kept { turning.KeptAll undo.old undo.new s.old s.new buf.old buf.new }
    ensures grew { turning.is_back result.asked.back ≡ false → (len < result.asked.len) × (result.asked.len ≤ length log.old) }
{
    let a = ioctl_ask(p, pos, len, undo, rec, log, buf);
    if is_back(a) {
        return ioctl_turned(false, ioctl_fault(0), a);
    }
    if a.fault {
        return answered(ioctl_fault((a.value % 256) as u8), a);
    }
    answered(ioctl_answer(s, undo, buf, n, p, a.value), a)
}

// From the operation at p to the exchange's end.
pub fn ioctl_run(
    n: u16,
    p: IoctlAt,
    pos: usize,
    len: usize,
    s: &mut SessionBytes,
    undo: &mut UndoBytes,
    rec: &[u32],
    log: &mut [u32],
    buf: &mut WorkBuffer,
) -> IoctlTurned
    requires s_value { is_session s.old ≡ true }
    requires kept_2 { Kept undo.old }
    requires len_in_bounds { len ≤ length log.old }
    ensures on { (x : Args) (g : stage.Stage) → to.Fits x g n → (e : World) → to.Stood x g e (to.asked_at x g e rec.now log.old pos len p s.old buf.old) rec.now result log.new s.new buf.new }
    ensures asks { (result.on ≡ false) × (result.on ≡ to.on_of result) }
    ensures held { is_session s.new ≡ true }
    ensures kept { turning.KeptAll undo.old undo.new s.old s.new buf.old buf.new }
    ensures grew { turning.is_back result.asked.back ≡ false → (len < result.asked.len) × (result.asked.len ≤ length log.old) }
{
    let mut t = ioctl_from(p, pos, len);
    while t.on {
        let now = t.now;
        let at = now.at;
        let a = t.asked;
        t = ioctl_turn(n, at, a.pos, a.len, s, undo, rec, log, buf);
    }
    t
}
