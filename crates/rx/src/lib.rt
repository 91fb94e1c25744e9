// Received packets, in the work buffer.
#![tactic(auto)]

ghost use Rattle.std.specs.Prelude.{◌≡◌, length};
ghost use Rattle.definition.specs.Packet.{process_rx};
ghost use Rattle.rx.specs.Packets as to;

use rx_header::{accepted, channel_in, is_packet, size_in};
use rx_payload::{Packet, none, payload_of};
use wlan::{Sdpcm, WorkBuffer};

#[derive(Clone, Copy)]
pub struct Processed {
    pub sdpcm: Sdpcm,
    pub packet: Packet,
}

// How many bytes came is not consulted.
pub fn sdpcm_process_rx_packet(came: u16, buf: &WorkBuffer, s: Sdpcm) -> Processed
    ensures { to.rx_of result ≡ process_rx came buf.now s }
{
    if is_packet(buf) {
        let next = accepted(buf, s);
        let packet = payload_of(
            buf,
            size_in(buf),
            channel_in(buf),
            buf[7],
            s.requested_ioctl_id,
        );
        return Processed {
            sdpcm: next,
            packet: packet,
        };
    }
    Processed {
        sdpcm: s,
        packet: none(),
    }
}
