// `poll` over its recording, on a session's bytes.
#![tactic(auto)]

ghost use Rattle.std.specs.Prelude.{◌≡◌, true, false, ◌≤◌, ◌<◌, length, drop};
ghost use Rattle.definition.specs.Bus.{Bytes};
ghost use Rattle.definition.specs.Prog.{World};
ghost use Rattle.definition.specs.Run.{End};
ghost use Rattle.device.specs.Poll.{poll_op, poll_start};
ghost use Rattle.control.specs.declared.CallNext as next;
ghost use Rattle.control.specs.declared.CallPoint as point;
ghost use Rattle.control.specs.Meaning.{call_tree};
ghost use Rattle.session_bytes.specs.Session.{is_session, session_in};
ghost use Rattle.poll_points.specs.PollPoints.{point_of};
ghost use Rattle.going.specs.Onward.{go};
ghost use Rattle.undo.specs.Undo.{Kept};
ghost use Rattle.asking.specs.Asking.{Asks};
ghost use Rattle.poll_now.specs.PollNow.{NextIs};
ghost use Rattle.polls.specs.Polls.{first_point};
ghost use Rattle.turning.specs.Turning as turning;
ghost use Rattle.poll_call.specs.PollCall as to;

use asking::{Asked, ask_interrupt, ask_status, ask_tick};
use places_read::sdpcm_at;
use poll_now::{NowKind, PollNow};
use poll_points::{PollAt, PollKind};
use poll_report::poll_tick;
use polls::{first_read, poll_answer};
use run_end::{RunEnd, done_end, error_end, fault_end, polled_end};
use turning::{back_end, device_ask, is_back};
use wlan::{DriverError, SessionBytes, UndoBytes, WorkBuffer};

// A turn goes on at an operation of the device's poll, or the poll is over. end.len: how many words are in the log.
#[derive(Clone, Copy)]
pub struct PollTurned {
    pub on: bool,
    pub at: PollAt,
    pub pos: usize,
    pub end: RunEnd,
}

fn over(end: RunEnd) -> PollTurned
    ensures { (result.on ≡ false) × (result.end ≡ end) }
{
    PollTurned {
        on: false,
        at: PollAt {
            kind: PollKind::Interrupt,
            n: 0,
        },
        pos: 0,
        end: end,
    }
}

fn onward(p: PollAt, pos: usize, len: usize) -> PollTurned
    ensures { (result.on ≡ true) × (result.at ≡ p) × (result.pos ≡ pos) × (result.end.len ≡ len) }
{
    PollTurned {
        on: true,
        at: p,
        pos: pos,
        end: done_end(len),
    }
}

// The tick is read; the disconnect began at this one.
fn tick_over(
    started: u64,
    pos: usize,
    len: usize,
    s: &mut SessionBytes,
    rec: &[u32],
    log: &mut [u32],
) -> RunEnd
    requires { is_session s.old ≡ true }
    ensures on { (e : World) (buf : Bytes) → turning.Ends e (go e (drop pos rec.now) log.old len (call_tree to.no_args (next.CallNext.Ask (point.CallPoint.PollTick started)) (turning.world_in s.old buf))) result log.new s.new buf }
    ensures held { to.Front s.old s.new }
{
    let a = ask_tick(pos, len, rec, log);
    if is_back(a) {
        return back_end(a);
    }
    if a.fault {
        return fault_end(a.value, a.len);
    }
    polled_end(poll_tick(s, started, a.value), a.len)
}

// From where a poll stands.
fn poll_now(
    n: PollNow,
    pos: usize,
    len: usize,
    s: &mut SessionBytes,
    rec: &[u32],
    log: &mut [u32],
) -> PollTurned
    requires { is_session s.old ≡ true }
    ensures on { (e : World) (buf : Bytes) (x : next.CallNext) → NextIs n x → to.Turns e (go e (drop pos rec.now) log.old len (call_tree to.no_args x (turning.world_in s.old buf))) rec.now result log.new s.new buf }
    ensures held { to.Front s.old s.new }
    ensures grew { result.on ≡ true → result.end.len ≡ len }
{
    let k = n.kind;
    let p = n.at;
    let report = n.report;
    match k {
        NowKind::Ask => onward(p, pos, len),
        NowKind::Tick => over(tick_over(n.started, pos, len, s, rec, log)),
        NowKind::Over => over(polled_end(report, len)),
        NowKind::HeaderBeyond => over(error_end(DriverError::EventHeader, len)),
    }
}

// One operation, its answer, and what follows.
pub fn poll_turn(
    p: PollAt,
    pos: usize,
    len: usize,
    s: &mut SessionBytes,
    undo: &mut UndoBytes,
    rec: &[u32],
    log: &mut [u32],
    buf: &mut WorkBuffer,
) -> PollTurned
    requires s_value { is_session s.old ≡ true }
    requires kept_2 { Kept undo.old }
    ensures on { (e : World) → to.Turns e (go e (drop pos rec.now) log.old len (call_tree to.no_args (next.CallNext.Ask (point.CallPoint.Poll (point_of p))) (turning.world_in s.old buf.old))) rec.now result log.new s.new buf.new }
    ensures held { is_session s.new ≡ true }
    ensures kept { turning.KeptAll undo.old undo.new s.old s.new buf.old buf.new }
    ensures grew { result.on ≡ true → (len < result.end.len) × (result.end.len ≤ length log.old) }
{
    let a = device_ask(p, pos, len, undo, rec, log, buf);
    if is_back(a) {
        return over(back_end(a));
    }
    if a.fault {
        return over(fault_end(a.value, a.len));
    }
    let n = poll_answer(s, undo, buf, p, a.value);
    poll_now(n, a.pos, a.len, s, rec, log)
}

// A poll's first operation; marked: an earlier packet was good.
fn first_ask(marked: bool, rec: &[u32], log: &mut [u32]) -> Asked
    ensures { (b : Bytes) → Asks (poll_op (first_point marked)) rec.now log.old log.new 0 0 b b result }
{
    if marked {
        return ask_status(0, 0, rec, log);
    }
    ask_interrupt(0, 0, rec, log)
}

// The first operation stands before the loop: a poll with nothing ends there. What follows is as in `poll_now`, which has one caller so
// that the loop holds it inline.
fn first_turn(marked: bool, s: &mut SessionBytes, rec: &[u32], log: &mut [u32]) -> PollTurned
    requires { is_session s.old ≡ true }
    ensures on { (e : World) (buf : Bytes) → to.Turns e (go e (drop 0 rec.now) log.old 0 (call_tree to.no_args (next.CallNext.Ask (point.CallPoint.Poll (first_point marked))) (turning.world_in s.old buf))) rec.now result log.new s.new buf }
    ensures held { to.Front s.old s.new }
    ensures grew { result.on ≡ true → result.end.len ≤ length log.old }
{
    let a = first_ask(marked, rec, log);
    if is_back(a) {
        return over(back_end(a));
    }
    if a.fault {
        return over(fault_end(a.value, a.len));
    }
    let n = first_read(marked, s, a.value);
    let k = n.kind;
    let p = n.at;
    let report = n.report;
    match k {
        NowKind::Ask => onward(p, a.pos, a.len),
        NowKind::Tick => over(tick_over(n.started, a.pos, a.len, s, rec, log)),
        NowKind::Over => over(polled_end(report, a.len)),
        NowKind::HeaderBeyond => over(error_end(DriverError::EventHeader, a.len)),
    }
}

// From a turn on to the end.
fn poll_on(
    first: PollTurned,
    s: &mut SessionBytes,
    undo: &mut UndoBytes,
    rec: &[u32],
    log: &mut [u32],
    buf: &mut WorkBuffer,
) -> RunEnd
    requires s_value { is_session s.old ≡ true }
    requires kept_2 { Kept undo.old }
    requires len_in_bounds { first.on ≡ true → first.end.len ≤ length log.old }
    ensures on { (e : World) (x : End) → to.Turns e x rec.now first log.old s.old buf.old → turning.Ends e x result log.new s.new buf.new }
    ensures held { is_session s.new ≡ true }
    ensures kept { turning.KeptAll undo.old undo.new s.old s.new buf.old buf.new }
{
    let mut t = first;
    while t.on {
        let p = t.at;
        let end = t.end;
        t = poll_turn(p, t.pos, end.len, s, undo, rec, log, buf);
    }
    let end = t.end;
    end
}

// From its beginning to its end.
pub fn poll_run(
    s: &mut SessionBytes,
    undo: &mut UndoBytes,
    rec: &[u32],
    log: &mut [u32],
    buf: &mut WorkBuffer,
) -> RunEnd
    requires s_value { is_session s.old ≡ true }
    requires kept_2 { Kept undo.old }
    ensures on { (e : World) → turning.Ends e (go e (drop 0 rec.now) log.old 0 (call_tree to.no_args (next.CallNext.Ask (point.CallPoint.Poll (poll_start (session_in s.old).st.sdpcm))) (turning.world_in s.old buf.old))) result log.new s.new buf.new }
    ensures held { is_session s.new ≡ true }
    ensures kept { turning.KeptAll undo.old undo.new s.old s.new buf.old buf.new }
{
    let sdpcm = sdpcm_at(s);
    let t = first_turn(sdpcm.had_successful_packet, s, rec, log);
    poll_on(t, s, undo, rec, log, buf)
}
