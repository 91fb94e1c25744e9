// A poll of the device, on a session's bytes: where it waits, and an answer that brings no packet. What is handed on is flat, a kind
// beside plain numbers: a compiler keeps that in registers.
#![tactic(auto)]

ghost use Rattle.std.specs.Prelude.{◌≡◌, true, false};
ghost use Rattle.wlan.specs.State.{set_mark};
ghost use Rattle.wlan.specs.declared.Sdpcm.{Sdpcm};
ghost use Rattle.wlan.specs.declared.SdpcmPacket as packet;
ghost use Rattle.device.specs.declared.PollNext as next;
ghost use Rattle.device.specs.Poll as to;
ghost use Rattle.session_bytes.specs.Session.{is_session, session_in};
ghost use Rattle.poll_points.specs.PollPoints as at;

use places::write::put_sdpcm;
use places_read::sdpcm_at;
use sdpcm::status::{f2_available, has_packet, pending, unreadable};
use wlan::setters::set_mark;
use wlan::{Interface, SessionBytes};

#[derive(Clone, Copy)]
pub enum PollKind {
    Interrupt,
    Acknowledge,
    Status,
    Waited,
    FrameControl,
    Packet,
}

// Where a poll of the device waits. n: the interrupt to write back, how many status reads are left, or the packet's length.
#[derive(Clone, Copy)]
pub struct PollAt {
    pub kind: PollKind,
    pub n: u16,
}

#[derive(Clone, Copy)]
pub enum PolledKind {
    Ask,
    None,
    Control,
    AsyncEvent,
    Data,
    HeaderBeyond,
}

// What an answer comes to: the next operation, a packet or none, or refusal 10.
#[derive(Clone, Copy)]
pub struct Polled {
    pub kind: PolledKind,
    pub at: PollAt,
    pub offset: u16,
    pub len: u16,
    pub status: i32,
    pub interface: Interface,
}

pub fn ask(kind: PollKind, n: u16) -> Polled
    ensures { at.next_of result ≡ next.PollNext.Ask (at.point_by kind n) }
{
    Polled {
        kind: PolledKind::Ask,
        at: PollAt { kind: kind, n: n },
        offset: 0,
        len: 0,
        status: 0,
        interface: Interface::Sta,
    }
}

pub fn came(kind: PolledKind, offset: u16, len: u16, status: i32, interface: Interface) -> Polled
    ensures { result ≡ at.came_by kind offset len status interface }
{
    Polled {
        kind: kind,
        at: PollAt {
            kind: PollKind::Interrupt,
            n: 0,
        },
        offset: offset,
        len: len,
        status: status,
        interface: interface,
    }
}

pub fn none() -> Polled
    ensures { at.next_of result ≡ next.PollNext.Got packet.SdpcmPacket.None }
{
    came(PolledKind::None, 0, 0, 0, Interface::Sta)
}

// Without an earlier good packet the interrupt comes first.
pub fn poll_from(s: &SessionBytes) -> PollAt
    requires { is_session s.now ≡ true }
    ensures { at.point_of result ≡ to.poll_start (session_in s.now).st.sdpcm }
{
    let t = sdpcm_at(s);
    if t.had_successful_packet {
        PollAt {
            kind: PollKind::Status,
            n: 999,
        }
    } else {
        PollAt {
            kind: PollKind::Interrupt,
            n: 0,
        }
    }
}

pub fn acknowledged(v: u16) -> Polled
    ensures { (s : Sdpcm) → to.step s (at.next_of result) ≡ to.acknowledged s v }
{
    if f2_available(v) {
        return ask(PollKind::Status, 999);
    }
    none()
}

pub fn interrupt_read(v: u16) -> Polled
    ensures { (s : Sdpcm) → to.step s (at.next_of result) ≡ to.interrupt_step s v }
{
    if v == 0 {
        return acknowledged(v);
    }
    ask(PollKind::Acknowledge, v)
}

pub fn waited(left: u16) -> Polled
    ensures { (s : Sdpcm) → to.step s (at.next_of result) ≡ to.waited s left }
{
    if left == 0 {
        return none();
    }
    ask(PollKind::Status, left - 1)
}

// The mark is cleared; no packet.
pub fn unmarked(s: &mut SessionBytes) -> Polled
    requires { is_session s.old ≡ true }
    ensures { at.Polls s.old s.new result (to.step (set_mark (session_in s.old).st.sdpcm false) (next.PollNext.Got packet.SdpcmPacket.None)) }
{
    put_sdpcm(s, set_mark(sdpcm_at(s), false));
    none()
}

fn by_status(s: &mut SessionBytes, v: u32) -> Polled
    requires { is_session s.old ≡ true }
    ensures { at.Polls s.old s.new result (to.status_step (session_in s.old).st.sdpcm v) }
{
    if has_packet(v) {
        if unreadable(v) {
            return ask(PollKind::FrameControl, 0);
        }
        return ask(PollKind::Packet, pending(v));
    }
    unmarked(s)
}

pub fn status_read(s: &mut SessionBytes, left: u16, v: u32) -> Polled
    requires { is_session s.old ≡ true }
    ensures { at.Polls s.old s.new result (to.read_step (session_in s.old).st.sdpcm left v) }
{
    if v == 0xffff_ffff {
        return ask(PollKind::Waited, left);
    }
    by_status(s, v)
}
