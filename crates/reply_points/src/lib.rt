// `do_ioctl`: where an exchange waits, and the steps of it that lay nothing and change nothing. What is handed on is flat.
#![tactic(auto)]

ghost use Rattle.std.specs.Prelude.{◌≡◌, Bool, true, false, ℕ, Option};
ghost use Rattle.wlan.specs.declared.DriverError as error;
ghost use Rattle.wlan.specs.declared.State.{State};
ghost use Rattle.definition.specs.Send.{response_of};
ghost use Rattle.send.specs.Send.{emit_step, ready_step, spending, put_of};
ghost use Rattle.ioctl.specs.declared.IoctlNext as next;
ghost use Rattle.ioctl.specs.declared.IoctlPoint.{IoctlPoint};
ghost use Rattle.ioctl.specs.Ioctl as to;
ghost use Rattle.session_bytes.specs.Session.{is_session, session_in};
ghost use Rattle.send_points.specs.SendPoints as send;
ghost use Rattle.reply_points.specs.ReplyPoints as at;
ghost use Rattle.send.specs.declared.Header.{Header};

use poll_points::{PollAt, poll_from};
use sdpcm::status::f2_ready;
use send::{OutPacket, elapsed_us};
use send_points::{SendAt, SendKind, unpolled};
use wlan::{DriverError, PendingIoctlResp, SessionBytes};

// A send's point or the exchange's own: the stall before the write, the status and the write, then the wait for the reply.
#[derive(Clone, Copy)]
pub enum IoctlKind {
    StallFirst,
    StallPolling,
    StallLate,
    StallWaited,
    Ready,
    Writing,
    First,
    Test,
    Polling,
    Waited,
}

// Where an exchange waits. at: the operation of a stall's poll or of a poll for the reply; t0: the clock at the start of a stall or of the
// wait for the reply; left: how many status reads are left; n: the packet's length.
#[derive(Clone, Copy)]
pub struct IoctlAt {
    pub kind: IoctlKind,
    pub at: PollAt,
    pub t0: u64,
    pub left: u16,
    pub n: u16,
}

#[derive(Clone, Copy)]
pub enum IoctlNowKind {
    Ask,
    Done,
    Refused,
}

// What a step comes to: the next operation, a reply's place in the work buffer, or a refusal.
#[derive(Clone, Copy)]
pub struct IoctlNow {
    pub kind: IoctlNowKind,
    pub at: IoctlAt,
    pub offset: u16,
    pub count: u16,
    pub error: DriverError,
}

pub fn asks(kind: IoctlKind, q: PollAt, t0: u64, left: u16, n: u16) -> IoctlNow
    ensures { (h : Option Header) → at.next_of result h ≡ next.IoctlNext.Ask h (at.point_by kind q t0 left n) }
{
    IoctlNow {
        kind: IoctlNowKind::Ask,
        at: IoctlAt {
            kind: kind,
            at: q,
            t0: t0,
            left: left,
            n: n,
        },
        offset: 0,
        count: 0,
        error: DriverError::Io,
    }
}

// A point outside a poll.
pub fn waits(kind: IoctlKind, t0: u64, left: u16, n: u16) -> IoctlNow
    ensures { (h : Option Header) → at.next_of result h ≡ next.IoctlNext.Ask h (at.point_by kind send.unpolled t0 left n) }
{
    asks(kind, unpolled(), t0, left, n)
}

fn ended(kind: IoctlNowKind, offset: u16, n: u16, e: DriverError) -> IoctlNow
    ensures { (result.kind ≡ kind) × (result.offset ≡ offset) × (result.count ≡ n) × (result.error ≡ e) }
{
    IoctlNow {
        kind: kind,
        at: IoctlAt {
            kind: IoctlKind::First,
            at: unpolled(),
            t0: 0,
            left: 0,
            n: 0,
        },
        offset: offset,
        count: n,
        error: e,
    }
}

fn done(offset: u16, n: u16) -> IoctlNow
    ensures { (h : Option Header) → at.next_of result h ≡ next.IoctlNext.Done (at.copied offset n) }
{
    ended(IoctlNowKind::Done, offset, n, DriverError::Io)
}

pub fn refuse(e: DriverError) -> IoctlNow
    ensures { (h : Option Header) → at.next_of result h ≡ next.IoctlNext.Refused h e }
{
    ended(IoctlNowKind::Refused, 0, 0, e)
}

fn shorter(a: u16, b: u16) -> u16
    ensures { result ≡ to.shorter a b }
{
    if a < b { a } else { b }
}

// `finish_ioctl_resp`: len is the payload's length.
pub fn finish(len: u16, offset: u16, n: u16, status: i32) -> IoctlNow
    ensures { (s : State) (h : Bool) → to.finish_step s h len (response_of offset n status) ≡ at.stays s h result }
{
    if status == 0 {
        let m = shorter(len, n);
        if 2048 < offset as u32 + m as u32 {
            return refuse(DriverError::PastBuffer);
        }
        return done(offset, m);
    }
    refuse(DriverError::Io)
}

pub fn finish_stored(len: u16, p: PendingIoctlResp) -> IoctlNow
    ensures { (s : State) (h : Bool) → to.finish_step s h len p ≡ at.stays s h result }
{
    let buf = p.buf;
    finish(len, buf.offset, buf.len, p.status)
}

// A point of the send.
pub fn sends(p: SendAt) -> IoctlNow
    ensures { (h : Option Header) → at.next_of result h ≡ next.IoctlNext.Ask h (IoctlPoint.Sending (send.point_of p)) }
{
    let k = p.kind;
    let q = p.at;
    match k {
        SendKind::First => asks(IoctlKind::StallFirst, q, p.t0, p.left, p.n),
        SendKind::Polling => asks(IoctlKind::StallPolling, q, p.t0, p.left, p.n),
        SendKind::Late => asks(IoctlKind::StallLate, q, p.t0, p.left, p.n),
        SendKind::Waited => asks(IoctlKind::StallWaited, q, p.t0, p.left, p.n),
        SendKind::Ready => asks(IoctlKind::Ready, q, p.t0, p.left, p.n),
        SendKind::Writing => asks(IoctlKind::Writing, q, p.t0, p.left, p.n),
    }
}

// Once the request's header is laid and the sequence number spent: a packet above 2,040 bytes goes no further.
pub fn emitted(out: OutPacket) -> IoctlNow
    ensures next { (s : State) (h : Bool) (len : ℕ) → to.sending_step (emit_step s h out) len ≡ to.step (spending s) h (at.next_of result (put_of s out)) }
    ensures laid { (h : Option Header) → at.header_in (at.next_of result h) ≡ h }
{
    let size = out.size;
    if 2040 < size {
        return refuse(DriverError::InvalidArg);
    }
    waits(IoctlKind::Ready, 0, 999, (size + 3) / 4 * 4)
}

// The status before the write.
pub fn ready_read(left: u16, n: u16, v: u32) -> IoctlNow
    ensures { (s : State) (len : ℕ) → to.sending_step (ready_step s left n v) len ≡ at.stays s false result }
{
    if f2_ready(v) {
        return waits(IoctlKind::Writing, 0, 0, n);
    }
    if left == 0 {
        return refuse(DriverError::Timeout);
    }
    waits(IoctlKind::Ready, 0, left - 1, n)
}

fn stall_kind(kind: IoctlKind) -> SendKind
    ensures { result ≡ at.stall_of kind }
{
    match kind {
        IoctlKind::StallFirst => SendKind::First,
        IoctlKind::StallPolling => SendKind::Polling,
        IoctlKind::StallLate => SendKind::Late,
        _ => SendKind::Waited,
    }
}

// A point of the send's stall, as the send has it.
pub fn stalls(p: IoctlAt) -> SendAt
    ensures { send.point_of result ≡ send.point_by (at.stall_of p.kind) p.at p.t0 p.left p.n }
{
    let k = p.kind;
    let q = p.at;
    SendAt {
        kind: stall_kind(k),
        at: q,
        t0: p.t0,
        left: p.left,
        n: p.n,
    }
}

pub fn test_read(s: &SessionBytes, t0: u64, t: u64) -> IoctlNow
    requires { is_session s.now ≡ true }
    ensures { to.test_step (session_in s.now).st t0 t ≡ at.stays (session_in s.now).st false result }
{
    if elapsed_us(t0, t) < 500_000 {
        asks(IoctlKind::Polling, poll_from(s), t0, 0, 0)
    } else {
        refuse(DriverError::Timeout)
    }
}

// The operation, no wait, met a fault.
pub fn ioctl_fault(place: u8) -> IoctlNow
    ensures { (h : Option Header) → at.next_of result h ≡ next.IoctlNext.Refused h (error.DriverError.Fault place) }
{
    refuse(DriverError::Fault(place))
}
