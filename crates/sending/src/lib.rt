// `sdpcm_send_common` on a session's bytes: its beginning, and its step at any point. buf has what an answer left; a header is laid
// there at once, and kept before that.
#![tactic(auto)]

ghost use Rattle.std.specs.Prelude.{◌≡◌, Bool, true, length, drop, Ok};
ghost use Rattle.slices.specs.Over.{over};
ghost use Rattle.wlan.specs.declared.AsyncEvent.{AsyncEvent};
ghost use Rattle.definition.specs.Event.{event_of};
ghost use Rattle.definition.specs.Packet.{header};
ghost use Rattle.handling.specs.Handle.{handled_of};
ghost use Rattle.device.specs.Poll.{poll_op};
ghost use Rattle.device.specs.Meaning.{arrival_at, Tells};
ghost use Rattle.send.specs.Send as to;
ghost use Rattle.session_bytes.specs.Session.{is_session, session_in};
ghost use Rattle.poll_points.specs.PollPoints as poll;
ghost use Rattle.undo.specs.Undo.{Kept};
ghost use Rattle.send_points.specs.SendPoints.{point_of};
ghost use Rattle.sending.specs.Sending as at;

use arriving::handle_async_event;
use places::write::put_sdpcm;
use places_read::sdpcm_at;
use poll_points::{PollAt, Polled, PolledKind};
use receive::{poll_device, store_reply};
use sdpcm::header::{next_seq, put_header};
use send::OutPacket;
use send_points::{
    SendAt, SendKind, SendNow, asks, emitted, is_free, polling, ready_read, refuse, sent,
    stall_late, waits,
};
use undo::keep;
use wlan::{DriverError, SessionBytes, UndoBytes, WorkBuffer};

// Lays a packet's header at the front of the work buffer, whose bytes there are kept.
fn lay_header(undo: &mut UndoBytes, buf: &mut WorkBuffer, size: u16, seq: u8, channel: u8)
    requires kept_2 { Kept undo.old }
    ensures laid { buf.new ≡ over buf.old 0 (header size seq channel) }
    ensures kept { at.Covered undo.old undo.new buf.old buf.new }
{
    keep(undo, buf, 12);
    put_header(buf, size, seq, channel);
}

// Lays the packet's header, and spends its sequence number.
pub fn emit_header(s: &mut SessionBytes, undo: &mut UndoBytes, buf: &mut WorkBuffer, out: OutPacket)
    requires s_value { is_session s.old ≡ true }
    requires kept { Kept undo.old }
    ensures { at.Spends undo.old undo.new s.old s.new buf.old buf.new out }
{
    let t = sdpcm_at(s);
    let spent = next_seq(t);
    put_sdpcm(s, spent);
    lay_header(undo, buf, out.size, t.packet_tx_seq, out.channel);
}

// The header is laid and the sequence number spent; a packet above 2,040 bytes goes no further.
fn emit(s: &mut SessionBytes, undo: &mut UndoBytes, buf: &mut WorkBuffer, out: OutPacket) -> SendNow
    requires s_value { is_session s.old ≡ true }
    requires kept { Kept undo.old }
    ensures { (h : Bool) → at.Emits undo.old undo.new s.old s.new buf.old buf.new result h (to.emit_step (session_in s.old).st h out) }
{
    emit_header(s, undo, buf, out);
    emitted(out)
}

pub fn send_start(
    s: &mut SessionBytes,
    undo: &mut UndoBytes,
    buf: &mut WorkBuffer,
    out: OutPacket,
) -> SendNow
    requires s_value { is_session s.old ≡ true }
    requires kept { Kept undo.old }
    ensures { (e : AsyncEvent) → at.Sends undo.old undo.new s.old s.new buf.old buf.new result e (to.start_step (session_in s.old).st out) }
{
    if is_free(s) {
        return emit(s, undo, buf, out);
    }
    waits(SendKind::First, 0, 0, 0)
}

// After a poll of a stall.
fn test(
    s: &mut SessionBytes,
    undo: &mut UndoBytes,
    buf: &mut WorkBuffer,
    out: OutPacket,
    t0: u64,
) -> SendNow
    requires s_value { is_session s.old ≡ true }
    requires kept { Kept undo.old }
    ensures { (h : Bool) → at.Emits undo.old undo.new s.old s.new buf.old buf.new result h (to.test_step (session_in s.old).st h out t0) }
{
    if is_free(s) {
        return emit(s, undo, buf, out);
    }
    waits(SendKind::Late, t0, 0, 0)
}

// A stall's poll brought an event of a declared length.
fn stall_event(
    s: &mut SessionBytes,
    undo: &mut UndoBytes,
    buf: &mut WorkBuffer,
    out: OutPacket,
    t0: u64,
    offset: u16,
    len: u16,
) -> SendNow
    requires s_value { is_session s.old ≡ true }
    requires kept { Kept undo.old }
    ensures { (e : AsyncEvent) → e ≡ event_of (drop offset buf.old) len → at.Sends undo.old undo.new s.old s.new buf.old buf.new result e (to.test_step (handled_of (session_in s.old).st len e).st (handled_of (session_in s.old).st len e).heard out t0) }
{
    handle_async_event(s, undo, buf, offset, len);
    test(s, undo, buf, out, t0)
}

// What a stall's poll came to.
fn stall_next(
    s: &mut SessionBytes,
    undo: &mut UndoBytes,
    buf: &mut WorkBuffer,
    out: OutPacket,
    t0: u64,
    r: Polled,
) -> SendNow
    requires s_value { is_session s.old ≡ true }
    requires kept { Kept undo.old }
    ensures { (e : AsyncEvent) → Tells buf.old e (poll.next_of r) → at.Sends undo.old undo.new s.old s.new buf.old buf.new result e (to.stall_next (session_in s.old).st out t0 e (poll.next_of r)) }
{
    let k = r.kind;
    let q = r.at;
    let offset = r.offset;
    let len = r.len;
    match k {
        PolledKind::Ask => asks(SendKind::Polling, q, t0, 0, 0),
        PolledKind::None => test(s, undo, buf, out, t0),
        PolledKind::Control => {
            store_reply(s, offset, len, r.status);
            polling(s, t0)
        }
        PolledKind::AsyncEvent => stall_event(s, undo, buf, out, t0, offset, len),
        PolledKind::Data => test(s, undo, buf, out, t0),
        PolledKind::HeaderBeyond => refuse(DriverError::EventHeader),
    }
}

fn stall_poll(
    s: &mut SessionBytes,
    undo: &mut UndoBytes,
    buf: &mut WorkBuffer,
    out: OutPacket,
    t0: u64,
    q: PollAt,
    v: u64,
) -> SendNow
    requires s_value { is_session s.old ≡ true }
    requires kept { Kept undo.old }
    ensures { at.Sends undo.old undo.new s.old s.new buf.old buf.new result (arrival_at (poll_op (poll.point_of q)) buf.old (session_in s.old).st.sdpcm).event (to.stall_poll (session_in s.old).st out t0 (poll.point_of q) (Ok v) (arrival_at (poll_op (poll.point_of q)) buf.old (session_in s.old).st.sdpcm)) }
{
    let r = poll_device(s, q, v, buf);
    stall_next(s, undo, buf, out, t0, r)
}

// The value of an answer to the operation at p.
pub fn send_answer(
    s: &mut SessionBytes,
    undo: &mut UndoBytes,
    buf: &mut WorkBuffer,
    out: OutPacket,
    p: SendAt,
    v: u64,
) -> SendNow
    requires s_value { is_session s.old ≡ true }
    requires kept { Kept undo.old }
    ensures { at.Sends undo.old undo.new s.old s.new buf.old buf.new result (arrival_at (to.send_op (point_of p)) buf.old (session_in s.old).st.sdpcm).event (to.send_answer (session_in s.old).st out (point_of p) (Ok v) (arrival_at (to.send_op (point_of p)) buf.old (session_in s.old).st.sdpcm)) }
{
    let k = p.kind;
    let q = p.at;
    let t0 = p.t0;
    match k {
        SendKind::First => polling(s, v),
        SendKind::Polling => stall_poll(s, undo, buf, out, t0, q, v),
        SendKind::Late => stall_late(t0, v),
        SendKind::Waited => polling(s, t0),
        SendKind::Ready => ready_read(p.left, p.n, (v % 4294967296) as u32),
        SendKind::Writing => sent(),
    }
}
