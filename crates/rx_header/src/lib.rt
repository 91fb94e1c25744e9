// A received packet's header, in the work buffer.
#![tactic(auto)]

ghost use Rattle.std.specs.Prelude.{◌≡◌, ◌&&◌, ◌==◌};
ghost use Rattle.definition.specs.Packet.{size_in, complement_in, channel_in, credit_step, is_packet, credits, accepted};

use wlan::{Sdpcm, WorkBuffer, setters};

// The header alone, in bytes.
const SHORTEST: u16 = 12;

pub fn size_in(buf: &WorkBuffer) -> u16
    ensures { result ≡ size_in buf.now }
{
    u16::from_le_bytes([buf[0], buf[1]])
}

fn complement_in(buf: &WorkBuffer) -> u16
    ensures { result ≡ complement_in buf.now }
{
    u16::from_le_bytes([buf[2], buf[3]])
}

// Size and complement are both 0: nothing was there to read.
pub fn blank(buf: &WorkBuffer) -> bool
    ensures { result ≡ (size_in buf.now == 0 && complement_in buf.now == 0) }
{
    size_in(buf) == 0 && complement_in(buf) == 0
}

pub fn is_packet(buf: &WorkBuffer) -> bool
    ensures { result ≡ is_packet buf.now }
{
    let size = size_in(buf);
    complement_in(buf) == !size && SHORTEST <= size
}

pub fn channel_in(buf: &WorkBuffer) -> u8
    ensures { result ≡ channel_in buf.now }
{
    buf[5] % 16
}

fn credit_step(last: u8, new: u8) -> u8
    ensures { result ≡ credit_step last new }
{
    new.wrapping_sub(last)
}

// Is the packet's credit to be stored?
fn credits(buf: &WorkBuffer, s: Sdpcm) -> bool
    ensures { result ≡ credits buf.now s }
{
    channel_in(buf) < 3 && credit_step(s.last_bus_data_credit, buf[9]) <= 20
}

#[tactic(auto, unfolding(definition::specs::Packet::accepted))]
fn credit_after(buf: &WorkBuffer, s: Sdpcm) -> u8
    ensures { result ≡ (accepted buf.now s).last_bus_data_credit }
{
    if credits(buf, s) {
        buf[9]
    } else {
        s.last_bus_data_credit
    }
}

// What is kept after a packet's header.
#[tactic(auto, unfolding(definition::specs::Packet::accepted))]
pub fn accepted(buf: &WorkBuffer, s: Sdpcm) -> Sdpcm
    ensures { result ≡ accepted buf.now s }
{
    setters::set_flow_credit(s, buf[8], credit_after(buf, s))
}
