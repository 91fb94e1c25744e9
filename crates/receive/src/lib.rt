// An answer to a poll of the device, on a session's bytes; buf has what it left. A packet that came, and a reply that is stored.
#![tactic(auto)]

ghost use Rattle.std.specs.Prelude.{◌≡◌, true, length, Ok};
ghost use Rattle.wlan.specs.declared.Sdpcm.{Sdpcm};
ghost use Rattle.rx_payload.specs.Packets.{received_of};
ghost use Rattle.device.specs.Poll as to;
ghost use Rattle.device.specs.Meaning.{arrival_of};
ghost use Rattle.send.specs.Send.{stored};
ghost use Rattle.session_bytes.specs.Session.{is_session, session_in, with_state};
ghost use Rattle.places.specs.Places.{Holds};
ghost use Rattle.poll_points.specs.PollPoints.{point_of, next_of, Polls};
ghost use Rattle.receive.specs.Receive.{polled_kind, polled_at};

use places::write::{put_reply, put_sdpcm};
use places_read::sdpcm_at;
use poll_points::{
    PollAt, PollKind, Polled, PolledKind, acknowledged, came, interrupt_read, status_read,
    unmarked, waited,
};
use rx::sdpcm_process_rx_packet;
use rx_header::blank;
use rx_payload::{Packet, PacketKind};
use wlan::setters::set_mark;
use wlan::{PendingBuf, PendingIoctlResp, SessionBytes, WorkBuffer};

fn polled_kind(k: PacketKind) -> PolledKind
    ensures { result ≡ polled_kind k }
{
    match k {
        PacketKind::None => PolledKind::None,
        PacketKind::Control => PolledKind::Control,
        PacketKind::AsyncEvent => PolledKind::AsyncEvent,
        PacketKind::Data => PolledKind::Data,
        PacketKind::HeaderBeyond => PolledKind::HeaderBeyond,
    }
}

fn received(p: Packet) -> Polled
    ensures { (s : Sdpcm) → to.step s (next_of result) ≡ to.got_step s (received_of p) }
{
    let k = p.kind;
    let interface = p.interface;
    came(polled_kind(k), p.offset, p.len, p.status, interface)
}

// A packet was read.
fn arrived(s: &mut SessionBytes, n: u16, buf: &WorkBuffer) -> Polled
    requires s_value { is_session s.old ≡ true }
    ensures { Polls s.old s.new result (to.arrived_step (session_in s.old).st.sdpcm (arrival_of n buf.now (session_in s.old).st.sdpcm)) }
{
    if blank(buf) {
        return unmarked(s);
    }
    let rx = sdpcm_process_rx_packet(n, buf, set_mark(sdpcm_at(s), true));
    let t = rx.sdpcm;
    let p = rx.packet;
    put_sdpcm(s, t);
    received(p)
}

// The value of an answer to the operation at p.
pub fn poll_device(s: &mut SessionBytes, p: PollAt, v: u64, buf: &WorkBuffer) -> Polled
    requires s_value { is_session s.old ≡ true }
    ensures { Polls s.old s.new result (polled_at (session_in s.old).st.sdpcm (point_of p) (Ok v) buf.now) }
{
    let k = p.kind;
    let n = p.n;
    match k {
        PollKind::Interrupt => interrupt_read((v % 65536) as u16),
        PollKind::Acknowledge => acknowledged(n),
        PollKind::Status => status_read(s, n, (v % 4294967296) as u32),
        PollKind::Waited => waited(n),
        PollKind::FrameControl => unmarked(s),
        PollKind::Packet => arrived(s, n, buf),
    }
}

// A reply that comes before it is asked for is stored.
pub fn store_reply(s: &mut SessionBytes, offset: u16, len: u16, status: i32)
    requires { is_session s.old ≡ true }
    ensures { Holds s.new (with_state s.old (stored (session_in s.old).st offset len status)) }
{
    put_reply(
        s,
        Some(PendingIoctlResp {
            buf: PendingBuf {
                offset: offset,
                len: len,
            },
            status: status,
        }),
    );
}
