// `do_ioctl` on a session's bytes: its beginning, and its step at any point. buf has what an answer left; the send lays its header there.
#![tactic(auto)]

ghost use Rattle.std.specs.Prelude.{◌≡◌, Bool, true, false, length, Option, None, Ok};
ghost use Rattle.wlan.specs.declared.AsyncEvent.{AsyncEvent};
ghost use Rattle.device.specs.Poll.{poll_op};
ghost use Rattle.device.specs.Meaning.{arrival_at, Tells};
ghost use Rattle.send.specs.Send.{emit_step};
ghost use Rattle.ioctl.specs.Ioctl as to;
ghost use Rattle.session_bytes.specs.Session.{is_session, session_in};
ghost use Rattle.poll_points.specs.PollPoints as poll;
ghost use Rattle.undo.specs.Undo.{Kept};
ghost use Rattle.send_points.specs.SendPoints as send;
ghost use Rattle.reply_points.specs.ReplyPoints.{point_of};
ghost use Rattle.replying.specs.Replying as at;
ghost use Rattle.send.specs.declared.Header.{Header};

use arriving::handle_async_event;
use ioctl::out_of;
use places::write::{put_reply, put_sdpcm};
use places_read::{reply_at, sdpcm_at};
use poll_points::{PollAt, Polled, PolledKind};
use receive::poll_device;
use reply_points::{
    IoctlAt, IoctlKind, IoctlNow, asks, emitted, finish, finish_stored, ready_read, refuse, sends,
    stalls, test_read, waits,
};
use sdpcm::header::next_id;
use send_points::{SendAt, SendNow, SentKind, is_free};
use sending::{emit_header, send_answer};
use wlan::{DriverError, PendingIoctlResp, SessionBytes, UndoBytes, WorkBuffer};

// The request is written: a stored reply is used, or one is awaited.
fn sent(s: &mut SessionBytes, len: u16) -> IoctlNow
    requires { is_session s.old ≡ true }
    ensures { (h : Bool) → at.Follows s.old s.new result h None (to.sent_step (session_in s.old).st h len) }
{
    let resp = reply_at(s);
    match resp {
        None => waits(IoctlKind::First, 0, 0, 0),
        Some(p) => {
            put_reply(s, None);
            finish_stored(len, p)
        }
    }
}

// After a step of the send.
fn sending_next(s: &mut SessionBytes, n: SendNow, len: u16) -> IoctlNow
    requires { is_session s.old ≡ true }
    ensures { (h : Bool) (x : Option Header) → at.Follows s.old s.new result h (send.header_in (send.next_of n x)) (to.sending_next (session_in s.old).st h len (send.next_of n x)) }
{
    let k = n.kind;
    let p = n.at;
    let e = n.error;
    match k {
        SentKind::Ask => sends(p),
        SentKind::Sent => sent(s, len),
        SentKind::Refused => refuse(e),
    }
}

// The id is spent.
fn number(s: &mut SessionBytes)
    requires { is_session s.old ≡ true }
    ensures { at.Numbered s.old s.new }
{
    put_sdpcm(s, next_id(sdpcm_at(s)));
}

// The request's header is laid and the sequence number spent; a packet above 2,040 bytes goes no further.
fn emit(s: &mut SessionBytes, undo: &mut UndoBytes, buf: &mut WorkBuffer, len: u16) -> IoctlNow
    requires s_value { is_session s.old ≡ true }
    requires kept { Kept undo.old }
    ensures { at.Starts undo.old undo.new s.old s.new buf.old buf.new result (to.sending_step (emit_step (session_in s.old).st false (to.out_of len)) len) }
{
    let out = out_of(len);
    emit_header(s, undo, buf, out);
    emitted(out)
}

// The send begins.
fn sending_start(
    s: &mut SessionBytes,
    undo: &mut UndoBytes,
    buf: &mut WorkBuffer,
    len: u16,
) -> IoctlNow
    requires s_value { is_session s.old ≡ true }
    requires kept { Kept undo.old }
    ensures { at.Starts undo.old undo.new s.old s.new buf.old buf.new result (at.first_step (session_in s.old).st len) }
{
    if is_free(s) {
        return emit(s, undo, buf, len);
    }
    waits(IoctlKind::StallFirst, 0, 0, 0)
}

// The id is spent, and the send begins.
pub fn ioctl_start(
    s: &mut SessionBytes,
    undo: &mut UndoBytes,
    buf: &mut WorkBuffer,
    len: u16,
) -> IoctlNow
    requires s_value { is_session s.old ≡ true }
    requires kept { Kept undo.old }
    ensures { at.Starts undo.old undo.new s.old s.new buf.old buf.new result (to.start_step (session_in s.old).st len) }
{
    number(s);
    sending_start(s, undo, buf, len)
}

// What a poll for the reply came to.
fn reply_next(
    s: &mut SessionBytes,
    undo: &mut UndoBytes,
    buf: &WorkBuffer,
    len: u16,
    t0: u64,
    r: Polled,
) -> IoctlNow
    requires s_value { is_session s.old ≡ true }
    requires kept { Kept undo.old }
    ensures { (e : AsyncEvent) → Tells buf.now e (poll.next_of r) → at.Replies undo.old undo.new s.old s.new buf.now buf.now result e (to.reply_next (session_in s.old).st len t0 e (poll.next_of r)) }
{
    let k = r.kind;
    let q = r.at;
    let offset = r.offset;
    let n = r.len;
    match k {
        PolledKind::Ask => asks(IoctlKind::Polling, q, t0, 0, 0),
        PolledKind::None => waits(IoctlKind::Waited, t0, 0, 0),
        PolledKind::Control => finish(len, offset, n, r.status),
        PolledKind::AsyncEvent => {
            handle_async_event(s, undo, buf, offset, n);
            waits(IoctlKind::Waited, t0, 0, 0)
        }
        PolledKind::Data => waits(IoctlKind::Waited, t0, 0, 0),
        PolledKind::HeaderBeyond => refuse(DriverError::EventHeader),
    }
}

fn reply_poll(
    s: &mut SessionBytes,
    undo: &mut UndoBytes,
    buf: &WorkBuffer,
    len: u16,
    t0: u64,
    q: PollAt,
    v: u64,
) -> IoctlNow
    requires s_value { is_session s.old ≡ true }
    requires kept { Kept undo.old }
    ensures { at.Replies undo.old undo.new s.old s.new buf.now buf.now result (arrival_at (poll_op (poll.point_of q)) buf.now (session_in s.old).st.sdpcm).event (to.reply_poll (session_in s.old).st len t0 (poll.point_of q) (Ok v) (arrival_at (poll_op (poll.point_of q)) buf.now (session_in s.old).st.sdpcm)) }
{
    let r = poll_device(s, q, v, buf);
    reply_next(s, undo, buf, len, t0, r)
}

// The value of an answer in the send's stall.
fn stall_answer(
    s: &mut SessionBytes,
    undo: &mut UndoBytes,
    buf: &mut WorkBuffer,
    len: u16,
    q: SendAt,
    v: u64,
) -> IoctlNow
    requires s_value { is_session s.old ≡ true }
    requires kept { Kept undo.old }
    ensures { at.Replies undo.old undo.new s.old s.new buf.old buf.new result (at.send_arrival (send.point_of q) buf.old (session_in s.old).st).event (to.sending_step (at.send_step (session_in s.old).st len (send.point_of q) v buf.old) len) }
{
    let n = send_answer(s, undo, buf, out_of(len), q, v);
    sending_next(s, n, len)
}

// The value of an answer to the operation at p. A send that need not wait has two: the status and the write.
pub fn ioctl_answer(
    s: &mut SessionBytes,
    undo: &mut UndoBytes,
    buf: &mut WorkBuffer,
    len: u16,
    p: IoctlAt,
    v: u64,
) -> IoctlNow
    requires s_value { is_session s.old ≡ true }
    requires kept { Kept undo.old }
    ensures { at.Replies undo.old undo.new s.old s.new buf.old buf.new result (arrival_at (to.ioctl_op (point_of p)) buf.old (session_in s.old).st.sdpcm).event (to.ioctl_answer (session_in s.old).st len (point_of p) (Ok v) (arrival_at (to.ioctl_op (point_of p)) buf.old (session_in s.old).st.sdpcm)) }
{
    let k = p.kind;
    let q = p.at;
    let t0 = p.t0;
    match k {
        IoctlKind::StallFirst
        | IoctlKind::StallPolling
        | IoctlKind::StallLate
        | IoctlKind::StallWaited => stall_answer(s, undo, buf, len, stalls(p), v),
        IoctlKind::Ready => ready_read(p.left, p.n, (v % 4294967296) as u32),
        IoctlKind::Writing => sent(s, len),
        IoctlKind::First => waits(IoctlKind::Test, v, 0, 0),
        IoctlKind::Test => test_read(s, t0, v),
        IoctlKind::Polling => reply_poll(s, undo, buf, len, t0, q, v),
        IoctlKind::Waited => waits(IoctlKind::Test, t0, 0, 0),
    }
}
