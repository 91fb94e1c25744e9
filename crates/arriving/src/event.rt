// What an event does to a session, its bytes read where they lie in a packet.
ghost use Rattle.std.specs.Prelude.{◌≡◌, true, ◌&&◌, ◌+◌, ◌≤◌, eqb, length, drop};
ghost use Rattle.definition.specs.Scan.{heard};
ghost use Rattle.definition.specs.Event.{scan_result_of, event_of};
ghost use Rattle.session_bytes.specs.Session.{is_session, session_in};
ghost use Rattle.places.specs.Places.{Holds};
ghost use Rattle.hearing.specs.Hearing.{with_list};
ghost use Rattle.undo.specs.Undo.{Kept};
ghost use Rattle.arriving.specs.Arriving as to;

use event_state::{Numbers, event_from, handle_numbers, numbers_in};
use hearing::count_in;
use hearing::result::{add_result, knows_result};
use undo::keep_records;
use wlan::{SessionBytes, UndoBytes, WorkBuffer};

// The list hears the event whose 140 bytes are e. The records are kept before one is laid.
fn hear_result(s: &mut SessionBytes, undo: &mut UndoBytes, e: &[u8])
    requires s_value { is_session s.old ≡ true }
    requires kept_2 { Kept undo.old }
    requires e_len { length e.now ≡ 140 }
    ensures list { Holds s.new (with_list s.old (heard (session_in s.old).list (scan_result_of e.now))) }
    ensures kept { to.KeptFor undo.old undo.new s.old s.new }
{
    let n = count_in(s);
    if knows_result(s, n, e) {
        return;
    }
    if n < 32 {
        keep_records(undo, s);
        add_result(s, n, e);
    }
}

// The same of an event that its declared length or the packet's end cuts off.
fn hear_cut(s: &mut SessionBytes, undo: &mut UndoBytes, buf: &[u8], offset: u16, len: u16)
    requires s_value { is_session s.old ≡ true }
    requires kept_2 { Kept undo.old }
    ensures list { Holds s.new (with_list s.old (heard (session_in s.old).list (event_of (drop offset buf.now) len).scan_result)) }
    ensures kept { to.KeptFor undo.old undo.new s.old s.new }
{
    let e = event_from(buf, offset as usize, len);
    hear_result(s, undo, &e);
}

// An event that brings a network.
fn hear_brought(s: &mut SessionBytes, undo: &mut UndoBytes, buf: &WorkBuffer, offset: u16, len: u16)
    requires s_value { is_session s.old ≡ true }
    requires kept_2 { Kept undo.old }
    ensures list { Holds s.new (with_list s.old (heard (session_in s.old).list (event_of (drop offset buf.now) len).scan_result)) }
    ensures kept { to.KeptFor undo.old undo.new s.old s.new }
{
    let from = offset as usize + 32;
    let end = offset as usize + 172;
    if len < 172 {
        hear_cut(s, undo, buf, offset, len);
        return;
    }
    if 2048 < end {
        hear_cut(s, undo, buf, offset, len);
        return;
    }
    hear_result(s, undo, &buf[from..end]);
}

// 69 is ESCAN_RESULT; status 8 brings a network.
fn brings_network(n: Numbers) -> bool
    ensures { result ≡ (eqb n.event_type 69 && eqb n.status 8) }
{
    if n.event_type != 69 {
        return false;
    }
    n.status == 8
}

// An event whose first 16 bytes are there.
pub fn handle_there(
    s: &mut SessionBytes,
    undo: &mut UndoBytes,
    buf: &WorkBuffer,
    offset: u16,
    len: u16,
)
    requires s_value { is_session s.old ≡ true }
    requires kept_2 { Kept undo.old }
    requires le_len { (48 ≤ len) × (offset + 48 ≤ 2048) }
    ensures held { Holds s.new (to.after_session s.old (event_of (drop offset buf.now) len)) }
    ensures kept { to.KeptFor undo.old undo.new s.old s.new }
{
    let from = offset as usize + 32;
    let end = offset as usize + 48;
    let n = numbers_in(&buf[from..end]);
    if brings_network(n) {
        hear_brought(s, undo, buf, offset, len);
        return;
    }
    handle_numbers(s, n);
}

// An event of which the packet does not have the first 16 bytes.
pub fn handle_far(s: &mut SessionBytes, undo: &mut UndoBytes, buf: &[u8], offset: u16, len: u16)
    requires s_value { is_session s.old ≡ true }
    requires kept_2 { Kept undo.old }
    ensures held { Holds s.new (to.after_session s.old (event_of (drop offset buf.now) len)) }
    ensures kept { to.KeptFor undo.old undo.new s.old s.new }
{
    let e = event_from(buf, offset as usize, len);
    let n = numbers_in(&e);
    if brings_network(n) {
        hear_result(s, undo, &e);
        return;
    }
    handle_numbers(s, n);
}
