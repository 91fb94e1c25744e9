// `poll`.
ghost use Rattle.std.specs.Prelude.{◌≡◌, true, length};
ghost use Rattle.definition.specs.Calls.{Call};
ghost use Rattle.session_bytes.specs.Session.{is_session};
ghost use Rattle.runs.specs.Runs as to;

use poll_call::poll_run;
use run_end::RunEnd;
use turning::settle;
use undo::keep_front;
use wlan::{SessionBytes, UndoBytes, WorkBuffer};

pub fn run_poll(
    s: &mut SessionBytes,
    undo: &mut UndoBytes,
    rec: &[u32],
    log: &mut [u32],
    buf: &mut WorkBuffer,
) -> RunEnd
    requires s_value { is_session s.old ≡ true }
    ensures { to.Ran (Call.wifi_poll) rec.now log.old log.new s.old s.new buf.old buf.new result }
{
    keep_front(undo, s);
    let r = poll_run(s, undo, rec, log, buf);
    settle(r, s, undo, buf);
    r
}
