// Requests and replies in the work buffer.
#![tactic(auto)]

pub mod lay;

ghost use Rattle.std.specs.Prelude.{◌≡◌, ◌+◌, ◌*◌, take, drop};
ghost use Rattle.slices.specs.Over.{over};
ghost use Rattle.definition.specs.Request.{ioctl_header};
ghost use Rattle.definition.specs.Calls.{mac_in};
ghost use Rattle.requests.specs.Request.{request_of};
ghost use Rattle.requests.specs.Number.{numbers};

use crate::lay::lay_payload;
use payload::put_low32;
use requests::Request;
use requests::numbers::{payload_len, request_cmd, request_interface, request_kind};

// The payload, from byte 28 on.
pub fn lay_request(buf: &mut [u8], r: Request, first: &[u8], second: &[u8])
    ensures { buf.new ≡ over buf.old 28 (request_of r first.now second.now).payload }
{
    if buf.len() < 28 {
        return;
    }
    lay_payload(&mut buf[28..], r, first, second);
}

fn flags(r: Request, id: u8) -> usize
    ensures { result ≡ id * 65536 + (numbers r).interface * 4096 + (numbers r).kind }
{
    let interface = request_interface(r) as usize;
    let kind = request_kind(r) as usize;
    usize::from(id) * 65536 + interface * 4096 + kind
}

// The 16 bytes before the payload.
pub fn put_ioctl_header(buf: &mut [u8], r: Request, first: &[u8], second: &[u8], id: u8)
    ensures { buf.new ≡ over buf.old 12 (ioctl_header (request_of r first.now second.now) id) }
{
    put_words::put_le32(buf, 12, request_cmd(r));
    put_low32(buf, 16, payload_len(r, first, second));
    put_low32(buf, 20, flags(r, id));
    put_words::put_le32(buf, 24, 0);
}

// A reply's n bytes, from offset on, to where the payload was.
pub fn copy_reply(buf: &mut [u8], offset: usize, n: usize)
    ensures { buf.new ≡ over buf.old 28 (take n (drop offset buf.old)) }
{
    slices::copy_within(buf, offset, n, 28);
}

// The six bytes at 28, the first one highest.
pub fn mac_in(buf: &[u8]) -> u64
    ensures { result ≡ mac_in buf.now }
{
    let high = u64::from(words::get_be16(buf, 28));
    let low = u64::from(words::get_be32(buf, 30));
    high * 4294967296 + low
}
