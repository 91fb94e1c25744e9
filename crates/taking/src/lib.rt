// `take` on a session's bytes where they lie. It asks nothing of the bus and leaves the scan list.
#![tactic(auto)]

ghost use Rattle.std.specs.Prelude.{◌≡◌, true, List, ℕ, length, Err};
ghost use Rattle.wlan.specs.declared.Refusal.{Refusal};
ghost use Rattle.definition.specs.Calls.{Call};
ghost use Rattle.definition.specs.Run.{called};
ghost use Rattle.session_bytes.specs.Session.{is_session};
ghost use Rattle.run_end.specs.RunEnd.{end_by};
ghost use Rattle.turning.specs.Turning.{world_in};
ghost use Rattle.ending.specs.Take.{frame_taken};
ghost use Rattle.taking.specs.Taking as to;

use places::write::put_frame;
use places_read::frame_at;
use run_end::{EndKind, RunEnd, error_end, no_failure, success_end};
use wlan::{DriverError, PendingBuf, SessionBytes, Success};

// 13
fn other_length() -> RunEnd
    ensures { result ≡ end_by (Err Refusal.BufferLength) 0 }
{
    RunEnd {
        back: false,
        kind: EndKind::BufferLength,
        value: 0,
        failure: no_failure(),
        len: 0,
    }
}

// A frame that waits is given out, or dropped.
fn take_frame(f: PendingBuf, s: &mut SessionBytes, buf: &[u8], out: &mut [u8]) -> RunEnd
    requires { is_session s.old ≡ true }
    ensures { (log : List ℕ) → to.Leaves (frame_taken f (world_in s.old buf.now) log out.old) log s.new buf.now out.new result }
{
    put_frame(s, None);
    let n = f.len as usize;
    let offset = f.offset as usize;
    if out.len() < n {
        return error_end(DriverError::NoMem, 0);
    }
    if buf.len() < offset + n {
        return error_end(DriverError::PastBuffer, 0);
    }
    slices::copy_over(out, 0, &buf[offset..offset + n]);
    success_end(Success::Taken(f.len), 0)
}

pub fn run_take(s: &mut SessionBytes, buf: &[u8], out: &mut [u8]) -> RunEnd
    requires { is_session s.old ≡ true }
    ensures { (rec log : List ℕ) → to.Leaves (called (Call.get_rx_buf (length out.old)) (world_in s.old buf.now) rec log out.old) log s.new buf.now out.new result }
{
    if buf.len() != 2048 {
        return other_length();
    }
    let rx = frame_at(s);
    match rx {
        None => error_end(DriverError::WouldBlock, 0),
        Some(f) => take_frame(f, s, buf, out),
    }
}
