// `poll`.
ghost use Rattle.std.specs.Prelude.{◌≡◌, true, [], length};
ghost use Rattle.definition.specs.Calls.{Call};
ghost use Rattle.definition.specs.Run.{called};
ghost use Rattle.session_bytes.specs.Session.{is_session};
ghost use Rattle.turning.specs.Turning.{world_in};
ghost use Rattle.entry.specs.Entry.{shown, handed};
ghost use Rattle.entering.specs.Entering as to;

use crate::{hand, other_length};
use runs::polling::run_poll;
use session_form::is_session;
use wlan::{SESSION_LEN, SessionBytes, UNDO_LEN, UndoBytes, WORK_BUFFER_LEN, WorkBuffer};

fn poll_here(
    session: &mut SessionBytes,
    undo: &mut UndoBytes,
    rec: &[u32],
    log: &mut [u32],
    buf: &mut WorkBuffer,
    res: &mut [u64],
) -> u32
    requires session_value { is_session session.old ≡ true }
    ensures { shown result session.new log.new buf.new [] res.new ≡ handed res.old (called Call.wifi_poll (world_in session.old buf.old) rec.now log.old []) }
{
    let r = run_poll(session, undo, rec, log, buf);
    hand(r, res)
}

pub fn poll_entered(
    session: &mut [u8],
    undo: &mut [u8],
    rec: &[u32],
    log: &mut [u32],
    buf: &mut [u8],
    res: &mut [u64],
) -> u32
    ensures { shown result session.new log.new buf.new [] res.new ≡ to.entered Call.wifi_poll session.old (length undo.old) rec.now log.old buf.old [] res.old }
{
    let Some(session) = session.as_mut_array::<SESSION_LEN>() else {
        return 100;
    };
    if !is_session(session) {
        return 100;
    }
    let Some(undo) = undo.as_mut_array::<UNDO_LEN>() else {
        return other_length(res);
    };
    let Some(buf) = buf.as_mut_array::<WORK_BUFFER_LEN>() else {
        return other_length(res);
    };
    poll_here(session, undo, rec, log, buf, res)
}
