// The calls that are exchanges.
ghost use Rattle.std.specs.Prelude.{◌≡◌, true, [], length};
ghost use Rattle.definition.specs.Run.{called};
ghost use Rattle.jobs.specs.Jobs.{call_of};
ghost use Rattle.session_bytes.specs.Session.{is_session};
ghost use Rattle.turning.specs.Turning.{world_in};
ghost use Rattle.entry.specs.Entry.{shown, handed};
ghost use Rattle.entering.specs.Entering as to;

use crate::{hand, other_length};
use jobs::ExchangeCall;
use runs::exchanges::run_exchanges;
use session_form::is_session;
use wlan::{SESSION_LEN, SessionBytes, UNDO_LEN, UndoBytes, WORK_BUFFER_LEN, WorkBuffer};

fn exchange_here(
    c: ExchangeCall,
    a: &[u8],
    b: &[u8],
    session: &mut SessionBytes,
    undo: &mut UndoBytes,
    rec: &[u32],
    log: &mut [u32],
    buf: &mut WorkBuffer,
    res: &mut [u64],
) -> u32
    requires session_value { is_session session.old ≡ true }
    ensures { shown result session.new log.new buf.new [] res.new ≡ handed res.old (called (call_of c a.now b.now) (world_in session.old buf.old) rec.now log.old []) }
{
    let r = run_exchanges(c, a, b, session, undo, rec, log, buf);
    hand(r, res)
}

// a and b: the byte arguments.
pub fn exchange_entered(
    c: ExchangeCall,
    a: &[u8],
    b: &[u8],
    session: &mut [u8],
    undo: &mut [u8],
    rec: &[u32],
    log: &mut [u32],
    buf: &mut [u8],
    res: &mut [u64],
) -> u32
    ensures { shown result session.new log.new buf.new [] res.new ≡ to.entered (call_of c a.now b.now) session.old (length undo.old) rec.now log.old buf.old [] res.old }
{
    let Some(session) = session.as_mut_array::<SESSION_LEN>() else {
        return 100;
    };
    if !is_session(session) {
        return 100;
    }
    let Some(undo) = undo.as_mut_array::<UNDO_LEN>() else {
        return other_length(res);
    };
    let Some(buf) = buf.as_mut_array::<WORK_BUFFER_LEN>() else {
        return other_length(res);
    };
    exchange_here(c, a, b, session, undo, rec, log, buf, res)
}

// The calls without byte arguments.
pub fn plain_entered(
    c: ExchangeCall,
    session: &mut [u8],
    undo: &mut [u8],
    rec: &[u32],
    log: &mut [u32],
    buf: &mut [u8],
    res: &mut [u64],
) -> u32
    ensures { shown result session.new log.new buf.new [] res.new ≡ to.entered (call_of c [] []) session.old (length undo.old) rec.now log.old buf.old [] res.old }
{
    let none = [0u8; 0];
    exchange_entered(c, &none, &none, session, undo, rec, log, buf, res)
}
