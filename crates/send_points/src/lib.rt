// `sdpcm_send_common`: where a send waits, and the steps of it that lay nothing and change nothing. What is handed on is flat.
#![tactic(auto)]

ghost use Rattle.std.specs.Prelude.{◌≡◌, Bool, true, Option};
ghost use Rattle.wlan.specs.declared.State.{State};
ghost use Rattle.definition.specs.Send.{free};
ghost use Rattle.send.specs.declared.SendNext as next;
ghost use Rattle.send.specs.Send as to;
ghost use Rattle.session_bytes.specs.Session.{is_session, session_in};
ghost use Rattle.send_points.specs.SendPoints as at;
ghost use Rattle.send.specs.declared.Header.{Header};

use places_read::sdpcm_at;
use poll_points::{PollAt, PollKind, poll_from};
use sdpcm::status::f2_ready;
use send::{OutPacket, elapsed_us};
use wlan::{DriverError, SessionBytes};

#[derive(Clone, Copy)]
pub enum SendKind {
    First,
    Polling,
    Late,
    Waited,
    Ready,
    Writing,
}

// Where a send waits. at: the operation of a stall's poll; t0: the clock at a stall's start; left: how many status reads are left; n: the
// packet's length.
#[derive(Clone, Copy)]
pub struct SendAt {
    pub kind: SendKind,
    pub at: PollAt,
    pub t0: u64,
    pub left: u16,
    pub n: u16,
}

#[derive(Clone, Copy)]
pub enum SentKind {
    Ask,
    Sent,
    Refused,
}

// What a step comes to: the next operation, the end, or a refusal.
#[derive(Clone, Copy)]
pub struct SendNow {
    pub kind: SentKind,
    pub at: SendAt,
    pub error: DriverError,
}

// Where no poll is.
pub fn unpolled() -> PollAt
    ensures { result ≡ at.unpolled }
{
    PollAt {
        kind: PollKind::Interrupt,
        n: 0,
    }
}

pub fn asks(kind: SendKind, q: PollAt, t0: u64, left: u16, n: u16) -> SendNow
    ensures { (h : Option Header) → at.next_of result h ≡ next.SendNext.Ask h (at.point_by kind q t0 left n) }
{
    SendNow {
        kind: SentKind::Ask,
        at: SendAt {
            kind: kind,
            at: q,
            t0: t0,
            left: left,
            n: n,
        },
        error: DriverError::Io,
    }
}

// A point outside a poll.
pub fn waits(kind: SendKind, t0: u64, left: u16, n: u16) -> SendNow
    ensures { (h : Option Header) → at.next_of result h ≡ next.SendNext.Ask h (at.point_by kind at.unpolled t0 left n) }
{
    asks(kind, unpolled(), t0, left, n)
}

fn ended(kind: SentKind, e: DriverError) -> SendNow
    ensures { (result.kind ≡ kind) × (result.error ≡ e) }
{
    SendNow {
        kind: kind,
        at: SendAt {
            kind: SendKind::First,
            at: unpolled(),
            t0: 0,
            left: 0,
            n: 0,
        },
        error: e,
    }
}

pub fn sent() -> SendNow
    ensures { (h : Option Header) → at.next_of result h ≡ next.SendNext.Sent }
{
    ended(SentKind::Sent, DriverError::Io)
}

pub fn refuse(e: DriverError) -> SendNow
    ensures { (h : Option Header) → at.next_of result h ≡ next.SendNext.Refused h e }
{
    ended(SentKind::Refused, e)
}

pub fn is_free(s: &SessionBytes) -> bool
    requires { is_session s.now ≡ true }
    ensures { result ≡ free (session_in s.now).st }
{
    let t = sdpcm_at(s);
    if t.wlan_flow_control == 0 {
        t.last_bus_data_credit != t.packet_tx_seq
    } else {
        false
    }
}

// Once the header is laid and the sequence number spent: a packet above 2,040 bytes goes no further.
pub fn emitted(out: OutPacket) -> SendNow
    ensures next { (s : State) (h : Bool) → to.emit_step s h out ≡ to.step (to.spending s) h (at.next_of result (to.put_of s out)) }
    ensures laid { (h : Option Header) → at.header_in (at.next_of result h) ≡ h }
{
    let size = out.size;
    if 2040 < size {
        return refuse(DriverError::InvalidArg);
    }
    waits(SendKind::Ready, 0, 999, (size + 3) / 4 * 4)
}

// A stall polls, from the beginning.
pub fn polling(s: &SessionBytes, t0: u64) -> SendNow
    requires { is_session s.now ≡ true }
    ensures { to.polling_step (session_in s.now).st t0 ≡ at.stays (session_in s.now).st result }
{
    asks(SendKind::Polling, poll_from(s), t0, 0, 0)
}

pub fn stall_late(t0: u64, t: u64) -> SendNow
    ensures { (s : State) → to.late_step s t0 t ≡ at.stays s result }
{
    if 1_000_000 < elapsed_us(t0, t) {
        return refuse(DriverError::Timeout);
    }
    waits(SendKind::Waited, t0, 0, 0)
}

pub fn ready_read(left: u16, n: u16, v: u32) -> SendNow
    ensures { (s : State) → to.ready_step s left n v ≡ at.stays s result }
{
    if f2_ready(v) {
        return waits(SendKind::Writing, 0, 0, n);
    }
    if left == 0 {
        return refuse(DriverError::Timeout);
    }
    waits(SendKind::Ready, 0, left - 1, n)
}
