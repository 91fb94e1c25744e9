// `send_data`.
ghost use Rattle.std.specs.Prelude.{◌≡◌, true, length};
ghost use Rattle.definition.specs.Calls.{Call, is_interface};
ghost use Rattle.session_bytes.specs.Session.{is_session};
ghost use Rattle.undo.specs.Undo.{Kept};
ghost use Rattle.straight_send.specs.Straight.{Straight};
ghost use Rattle.runs.specs.Runs as to;

use requests::numbers::is_interface;
use run_end::{RunEnd, done_end, error_end};
use send_call::send_run;
use straight_send::{goes_straight, send_straight};
use turning::settle;
use undo::keep_front;
use wlan::{DriverError, SessionBytes, UndoBytes, WorkBuffer};

// Arguments that are refused cost no operation.
fn send_any(
    interface: u32,
    frame: &[u8],
    s: &mut SessionBytes,
    undo: &mut UndoBytes,
    rec: &[u32],
    log: &mut [u32],
    buf: &mut WorkBuffer,
) -> RunEnd
    requires s_value { is_session s.old ≡ true }
    requires kept { Kept undo.old }
    ensures { to.Runs (Call.send_data interface frame.now) rec.now log.old log.new undo.old undo.new s.old s.new buf.old buf.new result }
{
    if is_interface(interface) {
        if frame.len() <= 2030 {
            return send_run(interface as u8, frame, s, undo, rec, log, buf);
        }
        return error_end(DriverError::InvalidArg, 0);
    }
    error_end(DriverError::InvalidArg, 0)
}

// What may have to be put back is kept.
fn send_kept(
    interface: u32,
    frame: &[u8],
    s: &mut SessionBytes,
    undo: &mut UndoBytes,
    rec: &[u32],
    log: &mut [u32],
    buf: &mut WorkBuffer,
) -> RunEnd
    requires s_value { is_session s.old ≡ true }
    ensures { to.Ran (Call.send_data interface frame.now) rec.now log.old log.new s.old s.new buf.old buf.new result }
{
    keep_front(undo, s);
    let r = send_any(interface, frame, s, undo, rec, log, buf);
    settle(r, s, undo, buf);
    r
}

// Nothing refuses it any more.
fn is_straight(interface: u32, frame: &[u8], s: &SessionBytes, rec: &[u32], log: &[u32]) -> bool
    requires { is_session s.now ≡ true }
    ensures { result ≡ true → (is_interface interface ≡ true) × Straight (length frame.now) s.now rec.now (length log.now) }
{
    is_interface(interface) && goes_straight(frame, s, rec, log)
}

pub fn run_send(
    interface: u32,
    frame: &[u8],
    s: &mut SessionBytes,
    undo: &mut UndoBytes,
    rec: &[u32],
    log: &mut [u32],
    buf: &mut WorkBuffer,
) -> RunEnd
    requires s_value { is_session s.old ≡ true }
    ensures { to.Ran (Call.send_data interface frame.now) rec.now log.old log.new s.old s.new buf.old buf.new result }
{
    if is_straight(interface, frame, s, rec, log) {
        let len = send_straight(interface as u8, frame, s, log, buf);
        return done_end(len);
    }
    send_kept(interface, frame, s, undo, rec, log, buf)
}
