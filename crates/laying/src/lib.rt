// What a step lays in the work buffer; all that lies there before is kept first.
#![tactic(auto)]

ghost use Rattle.std.specs.Prelude.{◌≡◌, length};
ghost use Rattle.control.specs.declared.Before as before;
ghost use Rattle.control.specs.declared.Job as job;
ghost use Rattle.control.specs.declared.RequestPut as put;
ghost use Rattle.control.specs.Meaning as to;
ghost use Rattle.effects.specs.Args.{args_of};
ghost use Rattle.undo.specs.Undo.{Kept};
ghost use Rattle.laying.specs.Laying as at;

use requests::Request;
use requests::numbers::payload_len;
use slices::fitting;
use undo::keep;
use wlan::{UndoBytes, WorkBuffer};
use work_buffer::{lay_request, put_ioctl_header};

// A reply's n bytes, from offset on, to where the payload was.
pub fn copy_reply(undo: &mut UndoBytes, buf: &mut WorkBuffer, offset: u16, n: u16)
    requires kept_2 { Kept undo.old }
    ensures laid { buf.new ≡ to.laid_before (before.Before.Copy (at.copied offset n)) buf.old }
    ensures kept { at.LaidKept undo.old undo.new buf.old buf.new }
{
    keep(undo, buf, 28 + n as usize);
    work_buffer::copy_reply(buf, offset as usize, n as usize);
}

// Keeps a request's place.
fn keep_request(undo: &mut UndoBytes, buf: &WorkBuffer, r: Request, first: &[u8], second: &[u8])
    requires kept { Kept undo.old }
    ensures { at.KeptTo undo.old undo.new buf.now (at.request_end r first.now second.now) }
{
    let n = fitting(2020, 0, payload_len(r, first, second));
    keep(undo, buf, 28 + n);
}

// A request's payload alone.
pub fn lay_payload(
    undo: &mut UndoBytes,
    buf: &mut WorkBuffer,
    r: Request,
    first: &[u8],
    second: &[u8],
)
    requires kept_2 { Kept undo.old }
    ensures laid { (j : job.Job) → buf.new ≡ to.laid_request (args_of j first.now second.now) (put.RequestPut.Payload r) buf.old }
    ensures kept { at.LaidKept undo.old undo.new buf.old buf.new }
{
    keep_request(undo, buf, r, first, second);
    lay_request(buf, r, first, second);
}

// Its payload and its ioctl header.
pub fn lay_whole(
    undo: &mut UndoBytes,
    buf: &mut WorkBuffer,
    r: Request,
    first: &[u8],
    second: &[u8],
    id: u8,
)
    requires kept_2 { Kept undo.old }
    ensures laid { (j : job.Job) → buf.new ≡ to.laid_request (args_of j first.now second.now) (put.RequestPut.Whole r id) buf.old }
    ensures kept { at.LaidKept undo.old undo.new buf.old buf.new }
{
    keep_request(undo, buf, r, first, second);
    lay_request(buf, r, first, second);
    put_ioctl_header(buf, r, first, second, id);
}

// Its header alone.
pub fn lay_numbered(
    undo: &mut UndoBytes,
    buf: &mut WorkBuffer,
    r: Request,
    first: &[u8],
    second: &[u8],
    id: u8,
)
    requires kept_2 { Kept undo.old }
    ensures laid { (j : job.Job) → buf.new ≡ to.laid_request (args_of j first.now second.now) (put.RequestPut.Numbered r id) buf.old }
    ensures kept { at.LaidKept undo.old undo.new buf.old buf.new }
{
    keep(undo, buf, 28);
    put_ioctl_header(buf, r, first, second, id);
}
