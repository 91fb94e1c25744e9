// What the runs of all calls share: an operation of a poll of the device, and how a run ends.
#![tactic(auto)]

ghost use Rattle.std.specs.Prelude.{◌≡◌, true, false, List, ℕ, length};
ghost use Rattle.definition.specs.Bus.{Bytes};
ghost use Rattle.definition.specs.Prog.{World, world};
ghost use Rattle.definition.specs.Run.{End};
ghost use Rattle.device.specs.Poll.{poll_op};
ghost use Rattle.poll_points.specs.PollPoints.{point_of};
ghost use Rattle.session_bytes.specs.Session.{is_session};
ghost use Rattle.undo.specs.Undo.{Kept, back_session, back_buf};
ghost use Rattle.asking.specs.Asking.{Asks, KeptOn, followed};
ghost use Rattle.turning.specs.Turning as to;

use asking::{
    Asked, Back, ask_frame_control, ask_interrupt, ask_interrupt_write, ask_packet, ask_status,
    ask_wait,
};
use poll_points::{PollAt, PollKind};
use run_end::{EndKind, RunEnd, no_failure};
use undo::put_back;
use wlan::{SessionBytes, UndoBytes, WorkBuffer};

// The operation at q.
pub fn device_ask(
    q: PollAt,
    pos: usize,
    len: usize,
    undo: &mut UndoBytes,
    rec: &[u32],
    log: &mut [u32],
    buf: &mut WorkBuffer,
) -> Asked
    requires kept_2 { Kept undo.old }
    ensures asks { Asks (poll_op (point_of q)) rec.now log.old log.new pos len buf.old buf.new result }
    ensures kept { KeptOn undo.old undo.new buf.old buf.new }
{
    let k = q.kind;
    let n = q.n;
    match k {
        PollKind::Interrupt => ask_interrupt(pos, len, rec, log),
        PollKind::Acknowledge => ask_interrupt_write(n, pos, len, rec, log),
        PollKind::Status => ask_status(pos, len, rec, log),
        PollKind::Waited => ask_wait(1000, pos, len, log),
        PollKind::FrameControl => ask_frame_control(pos, len, rec, log),
        PollKind::Packet => ask_packet(n, pos, len, undo, rec, log, buf),
    }
}

pub fn is_back(a: Asked) -> bool
    ensures { result ≡ to.is_back a.back }
{
    let b = a.back;
    match b {
        Back::No => false,
        Back::Unrecorded => true,
        Back::WrongAnswer => true,
        Back::LogFull => true,
    }
}

fn back_kind(b: Back) -> EndKind
    ensures { result ≡ to.back_kind b }
{
    match b {
        Back::No => EndKind::Done,
        Back::Unrecorded => EndKind::Unrecorded,
        Back::WrongAnswer => EndKind::WrongAnswer,
        Back::LogFull => EndKind::LogFull,
    }
}

// 8, 9 or 12.
pub fn back_end(a: Asked) -> RunEnd
    ensures { (e : World) (on : End) (log b : List ℕ) (buf : Bytes) → to.is_back a.back ≡ true → to.Ends e (followed e log a.len on a.back) result log b buf }
{
    let b = a.back;
    RunEnd {
        back: true,
        kind: back_kind(b),
        value: 0,
        failure: no_failure(),
        len: a.len,
    }
}

// The run is over: what it changed stays, or is put back. session₀ and buf₀: as they were before the call.
pub fn settle(r: RunEnd, session: &mut SessionBytes, undo: &UndoBytes, buf: &mut WorkBuffer)
    requires kept { Kept undo.now }
    requires session_value { is_session session.old ≡ true }
    ensures { (session₀ log : List ℕ) (buf₀ : Bytes) (e : End) → is_session session₀ ≡ true → (r.back ≡ true → back_session undo.now session.old ≡ session₀) → (r.back ≡ true → back_buf undo.now buf.old ≡ buf₀) → to.Ends (to.world_in session₀ buf₀) e r log session.old buf.old → (is_session session.new ≡ true) × (to.world_in session.new buf.new ≡ world e.st e.buf e.list) }
{
    if r.back {
        put_back(undo, session, buf);
    }
}
