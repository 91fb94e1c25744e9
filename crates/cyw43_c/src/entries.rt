// The entries. 100: the session's bytes are none.
ghost use Rattle.std.specs.Prelude.{◌≡◌, List, [], ℕ, eqb, length};
ghost use Rattle.slices.specs.Pick.{pick};
ghost use Rattle.definition.specs.Calls.{Call};
ghost use Rattle.session_bytes.specs.Session.{session_bytes};
ghost use Rattle.fresh_session.specs.Fresh.{fresh_session};
ghost use Rattle.entry.specs.Entry.{shown, entered};
ghost use Rattle.entering.specs.Entering as placed;

use entering::poll_entry::poll_entered;
use entering::send_entry::send_entered;
use entering::take_entry::take_entered;
use fresh_session::put_fresh;
use wlan::SESSION_LEN;

// Where the bytes have a session's length, they become a fresh session's.
pub fn cyw43_fresh(session: &mut [u8]) -> u32
    ensures { (result ≡ pick (eqb (length session.old) 1393) 0 100) × (session.new ≡ pick (eqb (length session.old) 1393) (session_bytes fresh_session) session.old) }
{
    let Some(session) = session.as_mut_array::<SESSION_LEN>() else {
        return 100;
    };
    put_fresh(session);
    0
}

pub fn cyw43_poll(
    session: &mut [u8],
    undo: &mut [u8],
    rec: &[u32],
    log: &mut [u32],
    buf: &mut [u8],
    res: &mut [u64],
) -> u32
    ensures { shown result session.new log.new buf.new [] res.new ≡ placed.entered Call.wifi_poll session.old (length undo.old) rec.now log.old buf.old [] res.old }
{
    poll_entered(session, undo, rec, log, buf, res)
}

pub fn cyw43_send(
    interface: u32,
    frame: &[u8],
    session: &mut [u8],
    undo: &mut [u8],
    rec: &[u32],
    log: &mut [u32],
    buf: &mut [u8],
    res: &mut [u64],
) -> u32
    ensures { shown result session.new log.new buf.new [] res.new ≡ placed.entered (Call.send_data interface frame.now) session.old (length undo.old) rec.now log.old buf.old [] res.old }
{
    send_entered(interface, frame, session, undo, rec, log, buf, res)
}

// No recording is read, and no operation logged.
pub fn cyw43_take(session: &mut [u8], buf: &[u8], out: &mut [u8], res: &mut [u64]) -> u32
    ensures { (rec log : List ℕ) → shown result session.new log buf.now out.new res.new ≡ entered (Call.get_rx_buf (length out.old)) session.old rec log buf.now out.old res.old }
{
    take_entered(session, buf, out, res)
}
