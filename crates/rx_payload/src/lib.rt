// What follows a received packet's header, in the work buffer: it has 2,048 bytes, so all that a header's length can reach is there.
// What is handed on is flat, a kind beside plain numbers.
#![tactic(auto)]

ghost use Rattle.std.specs.Prelude.{◌≡◌, length, take, Ok};
ghost use Rattle.wlan.specs.declared.SdpcmPacket as packet;
ghost use Rattle.definition.specs.Packet.{control_of, interface_of, data_of, event_at, payload_of};
ghost use Rattle.rx_payload.specs.Packets as to;

use wlan::{Interface, WorkBuffer};

#[derive(Clone, Copy)]
pub enum PacketKind {
    None,
    Control,
    AsyncEvent,
    Data,
    HeaderBeyond,
}

// A packet or none, or that its header's length is beyond its size.
#[derive(Clone, Copy)]
pub struct Packet {
    pub kind: PacketKind,
    pub offset: u16,
    pub len: u16,
    pub status: i32,
    pub interface: Interface,
}

#[tactic(auto, unfolding(crate::specs::Packets::received_by))]
pub fn none() -> Packet
    ensures { to.received_of result ≡ Ok packet.SdpcmPacket.None }
{
    Packet {
        kind: PacketKind::None,
        offset: 0,
        len: 0,
        status: 0,
        interface: Interface::Sta,
    }
}

// h is the header length.
#[tactic(auto, unfolding(definition::specs::Packet::control_of, crate::specs::Packets::received_by))]
fn control_of(buf: &WorkBuffer, size: u16, h: u8, id: u8) -> Packet
    ensures { to.received_of result ≡ Ok (control_of (take size buf.now) size h id) }
{
    let at = u16::from(h);
    if size < at + 16 {
        return none();
    }
    let i = usize::from(h);
    if words::get_whole(buf, i + 8) / 65536 != u32::from(id) {
        return none();
    }
    Packet {
        kind: PacketKind::Control,
        offset: at + 16,
        len: size - (at + 16),
        status: signed::signed32(words::get_whole(buf, i + 12)),
        interface: Interface::Sta,
    }
}

#[tactic(auto, unfolding(definition::specs::Packet::interface_of))]
fn interface_of(n: u8) -> Interface
    ensures { result ≡ interface_of n }
{
    match n {
        1 => Interface::Ap,
        2 => Interface::P2p,
        _ => Interface::Sta,
    }
}

#[tactic(auto, unfolding(definition::specs::Packet::data_of, crate::specs::Packets::received_by))]
fn data_of(buf: &WorkBuffer, size: u16, h: u8) -> Packet
    ensures { to.received_of result ≡ Ok (data_of (take size buf.now) size h) }
{
    let at = u16::from(h);
    if size <= 16 || size < at + 4 {
        return none();
    }
    let i = usize::from(h);
    let p = at + 4 + 4 * u16::from(buf[i + 3]);
    if size < p {
        return none();
    }
    Packet {
        kind: PacketKind::Data,
        offset: p,
        len: size - p,
        status: 0,
        interface: interface_of(buf[i + 2]),
    }
}

#[tactic(auto, unfolding(definition::specs::Packet::event_at, crate::specs::Packets::received_by))]
fn event_at(size: u16, h: u8) -> Packet
    ensures { to.received_of result ≡ event_at size h }
{
    let at = u16::from(h);
    if size < at {
        return Packet {
            kind: PacketKind::HeaderBeyond,
            offset: 0,
            len: 0,
            status: 0,
            interface: Interface::Sta,
        };
    }
    Packet {
        kind: PacketKind::AsyncEvent,
        offset: at,
        len: size - at,
        status: 0,
        interface: Interface::Sta,
    }
}

// The packet by its channel.
#[tactic(auto, unfolding(definition::specs::Packet::payload_of))]
pub fn payload_of(buf: &WorkBuffer, size: u16, channel: u8, h: u8, id: u8) -> Packet
    ensures { to.received_of result ≡ payload_of (take size buf.now) size channel h id }
{
    match channel {
        0 => control_of(buf, size, h, id),
        1 => event_at(size, h),
        2 => data_of(buf, size, h),
        _ => none(),
    }
}
