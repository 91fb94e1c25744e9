// `send_data` over its recording, on a session's bytes.
#![tactic(auto)]

pub mod asks;

ghost use Rattle.std.specs.Prelude.{◌≡◌, true, false, List, [], ℕ, ◌≤◌, ◌<◌, length, drop};
ghost use Rattle.slices.specs.Over.{over};
ghost use Rattle.definition.specs.Bus.{Bytes};
ghost use Rattle.definition.specs.Event.{event_of};
ghost use Rattle.definition.specs.Packet.{data_part};
ghost use Rattle.definition.specs.Prog.{World};
ghost use Rattle.definition.specs.Run.{End};
ghost use Rattle.control.specs.Meaning.{call_shown, call_tree};
ghost use Rattle.session_bytes.specs.Session.{is_session};
ghost use Rattle.going.specs.Onward.{go};
ghost use Rattle.undo.specs.Undo.{Kept};
ghost use Rattle.sending.specs.Sending.{Covered};
ghost use Rattle.turning.specs.Turning as turning;
ghost use Rattle.send_call.specs.SendCall as to;

use crate::asks::send_ask;
use poll_points::{PollAt, PollKind};
use run_end::{RunEnd, done_end, error_end, fault_end};
use sdpcm::header::put_data;
use send::OutPacket;
use send_points::{SendAt, SendKind, SendNow, SentKind};
use sending::{send_answer, send_start};
use turning::{back_end, is_back};
use undo::keep;
use wlan::{SessionBytes, UndoBytes, WorkBuffer};

// A turn goes on at an operation of the send, or the send is over. end.len: how many words are in the log.
#[derive(Clone, Copy)]
pub struct SendTurned {
    pub on: bool,
    pub at: SendAt,
    pub pos: usize,
    pub end: RunEnd,
}

fn over(end: RunEnd) -> SendTurned
    ensures { (result.on ≡ false) × (result.end ≡ end) }
{
    SendTurned {
        on: false,
        at: SendAt {
            kind: SendKind::First,
            at: PollAt {
                kind: PollKind::Interrupt,
                n: 0,
            },
            t0: 0,
            left: 0,
            n: 0,
        },
        pos: 0,
        end: end,
    }
}

fn onward(p: SendAt, pos: usize, len: usize) -> SendTurned
    ensures { (result.on ≡ true) × (result.at ≡ p) × (result.pos ≡ pos) × (result.end.len ≡ len) }
{
    SendTurned {
        on: true,
        at: p,
        pos: pos,
        end: done_end(len),
    }
}

// From where a send stands.
fn send_now(n: SendNow, pos: usize, len: usize) -> SendTurned
    ensures on { (frame : Bytes) (e : World) (rec log s : List ℕ) (buf : Bytes) → to.Turns frame e (go e (drop pos rec) log len (call_tree (to.args_in frame) (to.call_now n) (turning.world_in s buf))) rec result log s buf }
    ensures grew { result.on ≡ true → result.end.len ≡ len }
{
    let k = n.kind;
    let p = n.at;
    let x = n.error;
    match k {
        SentKind::Ask => onward(p, pos, len),
        SentKind::Sent => over(done_end(len)),
        SentKind::Refused => over(error_end(x, len)),
    }
}

fn out_of(size: u16) -> OutPacket
    ensures { result ≡ to.out_of size }
{
    OutPacket {
        channel: 2,
        size: size,
    }
}

// One operation, its answer, and what follows.
fn send_turn(
    size: u16,
    p: SendAt,
    pos: usize,
    len: usize,
    s: &mut SessionBytes,
    undo: &mut UndoBytes,
    rec: &[u32],
    log: &mut [u32],
    buf: &mut WorkBuffer,
) -> SendTurned
    requires s_value { is_session s.old ≡ true }
    requires kept_2 { Kept undo.old }
    ensures on { (frame : Bytes) → to.Sized frame size → (e : World) → to.Turns frame e (go e (drop pos rec.now) log.old len (call_tree (to.args_in frame) (to.asks_at p) (turning.world_in s.old buf.old))) rec.now result log.new s.new buf.new }
    ensures held { is_session s.new ≡ true }
    ensures kept { turning.KeptAll undo.old undo.new s.old s.new buf.old buf.new }
    ensures grew { result.on ≡ true → (len < result.end.len) × (result.end.len ≤ length log.old) }
{
    let a = send_ask(p, pos, len, undo, rec, log, buf);
    if is_back(a) {
        return over(back_end(a));
    }
    if a.fault {
        return over(fault_end(a.value, a.len));
    }
    let n = send_answer(s, undo, buf, out_of(size), p, a.value);
    send_now(n, a.pos, a.len)
}

// The frame is laid behind the header's place, and the bytes there are kept.
fn lay_frame(interface: u8, frame: &[u8], undo: &mut UndoBytes, buf: &mut WorkBuffer)
    requires kept_2 { Kept undo.old }
    requires frame_len_bound { length frame.now ≤ 2030 }
    ensures laid { buf.new ≡ over buf.old 12 (data_part interface frame.now) }
    ensures kept { Covered undo.old undo.new buf.old buf.new }
{
    keep(undo, buf, 18 + frame.len());
    put_data(buf, interface, frame);
}

// From a turn on to the end.
fn send_on(
    size: u16,
    first: SendTurned,
    s: &mut SessionBytes,
    undo: &mut UndoBytes,
    rec: &[u32],
    log: &mut [u32],
    buf: &mut WorkBuffer,
) -> RunEnd
    requires s_value { is_session s.old ≡ true }
    requires kept_2 { Kept undo.old }
    requires len_in_bounds { first.on ≡ true → first.end.len ≤ length log.old }
    ensures on { (frame : Bytes) → to.Sized frame size → (e : World) (x : End) → to.Turns frame e x rec.now first log.old s.old buf.old → turning.Ends e x result log.new s.new buf.new }
    ensures held { is_session s.new ≡ true }
    ensures kept { turning.KeptAll undo.old undo.new s.old s.new buf.old buf.new }
{
    let mut t = first;
    while t.on {
        let p = t.at;
        let end = t.end;
        t = send_turn(size, p, t.pos, end.len, s, undo, rec, log, buf);
    }
    let end = t.end;
    end
}

// ---- the call

// The frame is laid, and the send begins.
fn send_first(
    interface: u8,
    frame: &[u8],
    s: &mut SessionBytes,
    undo: &mut UndoBytes,
    buf: &mut WorkBuffer,
) -> SendNow
    requires s_value { is_session s.old ≡ true }
    requires kept_2 { Kept undo.old }
    requires frame_len_bound { length frame.now ≤ 2030 }
    ensures on { call_tree (to.args_in frame.now) (to.call_now result) (turning.world_in s.new buf.new) ≡ call_shown (to.args_in frame.now) (to.start_in interface frame.now s.old) (event_of [] 0) (turning.world_in s.old buf.old) }
    ensures held { is_session s.new ≡ true }
    ensures kept { turning.KeptAll undo.old undo.new s.old s.new buf.old buf.new }
{
    lay_frame(interface, frame, undo, buf);
    send_start(s, undo, buf, out_of(18 + frame.len() as u16))
}

// From its beginning to its end.
pub fn send_run(
    interface: u8,
    frame: &[u8],
    s: &mut SessionBytes,
    undo: &mut UndoBytes,
    rec: &[u32],
    log: &mut [u32],
    buf: &mut WorkBuffer,
) -> RunEnd
    requires s_value { is_session s.old ≡ true }
    requires kept_2 { Kept undo.old }
    requires frame_len_bound { length frame.now ≤ 2030 }
    ensures on { (e : World) → turning.Ends e (go e (drop 0 rec.now) log.old 0 (call_shown (to.args_in frame.now) (to.start_in interface frame.now s.old) (event_of [] 0) (turning.world_in s.old buf.old))) result log.new s.new buf.new }
    ensures held { is_session s.new ≡ true }
    ensures kept { turning.KeptAll undo.old undo.new s.old s.new buf.old buf.new }
{
    let size = 18 + frame.len() as u16;
    let n = send_first(interface, frame, s, undo, buf);
    send_on(size, send_now(n, 0, 0), s, undo, rec, log, buf)
}
