// An event that came is heard by the scan list, in a session's bytes; the records are kept before that.
#![tactic(auto)]

pub mod event;

ghost use Rattle.std.specs.Prelude.{◌≡◌, true, length, drop};
ghost use Rattle.definition.specs.Event.{event_of};
ghost use Rattle.session_bytes.specs.Session.{is_session};
ghost use Rattle.places.specs.Places.{Holds};
ghost use Rattle.undo.specs.Undo.{Kept};
ghost use Rattle.arriving.specs.Arriving as to;

use crate::event::{handle_far, handle_there};
use wlan::{SessionBytes, UndoBytes, WorkBuffer};

// An event of a declared length, in a packet in buf: what it does to the state and to the scan list. Below 48 bytes it is ignored.
pub fn handle_async_event(
    s: &mut SessionBytes,
    undo: &mut UndoBytes,
    buf: &WorkBuffer,
    offset: u16,
    len: u16,
)
    requires s_value { is_session s.old ≡ true }
    requires kept_2 { Kept undo.old }
    ensures held { Holds s.new (to.handled_session s.old (event_of (drop offset buf.now) len) len) }
    ensures kept { to.KeptFor undo.old undo.new s.old s.new }
{
    if len < 48 {
        return;
    }
    if 2000 < offset {
        handle_far(s, undo, buf, offset, len);
        return;
    }
    handle_there(s, undo, buf, offset, len);
}
