// What is there or not as numbers: a tag, 0 for none, and fields, 0 where there are none.
ghost use Rattle.std.specs.Prelude.{◌≡◌};
ghost use Rattle.slices.specs.Le.{signed32};
ghost use Rattle.state_bytes.specs.Parts as to;

use crate::numbers::unsigned32;
use signed::signed32;
use wlan::{PendingBuf, PendingIoctlResp};

#[derive(Clone, Copy)]
pub struct ReplyParts {
    pub tag: u8,
    pub offset: u16,
    pub len: u16,
    pub status: u32,
}

#[derive(Clone, Copy)]
pub struct FrameParts {
    pub tag: u8,
    pub offset: u16,
    pub len: u16,
}

#[derive(Clone, Copy)]
pub struct TickParts {
    pub tag: u8,
    pub tick: u64,
}

fn waiting_reply(x: PendingIoctlResp) -> ReplyParts
    ensures { (result ≡ to.waiting_reply x) × (signed32 result.status ≡ x.status) }
{
    let b = x.buf;
    ReplyParts {
        tag: 1,
        offset: b.offset,
        len: b.len,
        status: unsigned32(x.status),
    }
}

pub fn reply_parts(r: Option<PendingIoctlResp>) -> ReplyParts
    ensures { (result ≡ to.reply_parts r) × (to.reply_of result ≡ r) }
{
    match r {
        None => ReplyParts {
            tag: 0,
            offset: 0,
            len: 0,
            status: 0,
        },
        Some(x) => waiting_reply(x),
    }
}

pub fn reply_of(p: ReplyParts) -> Option<PendingIoctlResp>
    ensures { result ≡ to.reply_of p }
{
    if p.tag == 0 {
        return None;
    }
    let b = PendingBuf {
        offset: p.offset,
        len: p.len,
    };
    Some(PendingIoctlResp {
        buf: b,
        status: signed32(p.status),
    })
}

pub fn frame_parts(r: Option<PendingBuf>) -> FrameParts
    ensures { result ≡ to.frame_parts r }
{
    match r {
        None => FrameParts {
            tag: 0,
            offset: 0,
            len: 0,
        },
        Some(b) => FrameParts {
            tag: 1,
            offset: b.offset,
            len: b.len,
        },
    }
}

pub fn frame_of(p: FrameParts) -> Option<PendingBuf>
    ensures { result ≡ to.frame_of p }
{
    if p.tag == 0 {
        return None;
    }
    Some(PendingBuf {
        offset: p.offset,
        len: p.len,
    })
}

pub fn tick_parts(t: Option<u64>) -> TickParts
    ensures { result ≡ to.tick_parts t }
{
    match t {
        None => TickParts { tag: 0, tick: 0 },
        Some(n) => TickParts { tag: 1, tick: n },
    }
}

pub fn tick_of(p: TickParts) -> Option<u64>
    ensures { result ≡ to.tick_of p }
{
    if p.tag == 0 {
        return None;
    }
    Some(p.tick)
}
