// The fourteen calls, played.
ghost use Rattle.std.specs.Prelude.{◌≡◌, true, length, replicate};
ghost use Rattle.definition.specs.Player.{arguments_of};
ghost use Rattle.session_bytes.specs.Session.{is_session};
ghost use Rattle.lines.specs.Input.{output_length};
ghost use Rattle.session.specs.Play as to;

use arguments::{CallArgs, read_args};
use run_end::{RunEnd, error_end};
use runs::exchanges::run_exchanges;
use runs::frames::run_send;
use runs::polling::run_poll;
use taking::run_take;
use wlan::{DriverError, SessionBytes, UndoBytes, WorkBuffer};

// The call of that number, on an output of zeros. Bad arguments are refused with 1: nothing is changed.
pub fn play_call(
    call: u32,
    args: &[u8],
    s: &mut SessionBytes,
    undo: &mut UndoBytes,
    rec: &[u32],
    log: &mut [u32],
    buf: &mut WorkBuffer,
    out: &mut [u8],
) -> RunEnd
    requires s_value { is_session s.old ≡ true }
    requires out_value { out.old ≡ replicate (output_length call args.now) 0 }
    ensures { to.Plays (arguments_of call args.now) rec.now log.old log.new s.old s.new buf.old buf.new out.old out.new result }
{
    match read_args(call, args) {
        Some(CallArgs::Exchanges(c, a, b)) => run_exchanges(c, a, b, s, undo, rec, log, buf),
        Some(CallArgs::Poll) => run_poll(s, undo, rec, log, buf),
        Some(CallArgs::Send(interface, frame)) => {
            run_send(interface, frame, s, undo, rec, log, buf)
        }
        Some(CallArgs::Take) => run_take(s, buf, out),
        None => error_end(DriverError::InvalidArg, 0),
    }
}
