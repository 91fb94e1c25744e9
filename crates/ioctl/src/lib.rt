// `do_ioctl`: where it waits for the bus, the clock of its wait, and what a reply comes to.
#![tactic(auto)]

ghost use Rattle.std.specs.Prelude.{◌≡◌};
ghost use Rattle.ioctl.specs.Ioctl as to;

use device::PollPoint;
use send::{Header, OutPacket, SendPoint};
use wlan::{DriverError, State};

// While the reply is awaited the number is the clock at the wait's start.
#[derive(Clone, Copy)]
pub enum IoctlPoint {
    Sending(SendPoint),
    First,
    // The clock is read before a poll.
    Test(u64),
    Polling(u64, PollPoint),
    Waited(u64),
}

// The part of a reply that is copied to the payload's place.
#[derive(Clone, Copy)]
pub struct Copied {
    pub offset: u16,
    pub count: u16,
}

#[derive(Clone, Copy)]
pub enum IoctlNext {
    Ask(Option<Header>, IoctlPoint),
    Done(Copied),
    Refused(Option<Header>, DriverError),
}

// heard: the scan list is to hear the event that came.
#[derive(Clone, Copy)]
pub struct IoctlStep {
    pub st: State,
    pub heard: bool,
    pub next: IoctlNext,
}

// The packet of a request with so many payload bytes.
pub fn out_of(len: u16) -> OutPacket
    ensures { result ≡ to.out_of len }
{
    OutPacket {
        channel: 0,
        size: ((len as u32 + 28) % 65536) as u16,
    }
}
