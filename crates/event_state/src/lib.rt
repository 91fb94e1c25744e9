// What an event does to the state.
#![tactic(auto)]

ghost use Rattle.std.specs.Prelude.{◌≡◌, true, ◌≤◌, length, drop};
ghost use Rattle.wlan.specs.declared.ScanRecord as scanRecord;
ghost use Rattle.definition.specs.Event.{event_bytes, link_after, scan_end};
ghost use Rattle.handling.specs.Handle.{state_after};
ghost use Rattle.session_bytes.specs.Session.{is_session, session_in, with_state};
ghost use Rattle.places.specs.Places.{Holds, link_put, marks_put};
ghost use Rattle.event_state.specs.EventState as to;

use events::event::event_bytes;
use events::types;
use handling::link::link_after;
use places::write::{put_link, put_marks};
use places_read::{link_at, marks_at};
use wlan::{AsyncEvent, ScanMarks, ScanRecord, SessionBytes};

// A scan's status: it is over and done, or one network was heard.
const SUCCESS: u32 = 0;

const PARTIAL: u32 = 8;

// What leads an event.
#[derive(Clone, Copy)]
pub struct Numbers {
    pub flags: u16,
    pub event_type: u32,
    pub status: u32,
    pub reason: u32,
}

// The bytes of an event that begins at offset.
pub fn event_from(buf: &[u8], offset: usize, len: u16) -> [u8; 140]
    ensures { result ≡ event_bytes (drop offset buf.now) len }
{
    if buf.len() < offset {
        return event_bytes(&buf[buf.len()..], len);
    }
    event_bytes(&buf[offset..], len)
}

// The numbers where the event's first 16 bytes are there.
#[tactic(auto, unfolding(crate::specs::EventState::numbers_of))]
pub fn numbers_in(e: &[u8]) -> Numbers
    requires { 16 ≤ length e.now }
    ensures { result ≡ to.numbers_of e.now }
{
    Numbers {
        flags: u16::from_be_bytes([e[2], e[3]]),
        event_type: u32::from_be_bytes([e[4], e[5], e[6], e[7]]),
        status: u32::from_be_bytes([e[8], e[9], e[10], e[11]]),
        reason: u32::from_be_bytes([e[12], e[13], e[14], e[15]]),
    }
}

// The event's effect on the connection; a scan result has none.
fn handle_link(s: &mut SessionBytes, n: Numbers)
    requires { is_session s.old ≡ true }
    ensures { (x : scanRecord.ScanRecord) → Holds s.new (link_put s.old (link_after (to.event_with n x) (session_in s.old).st.link)) }
{
    let e = AsyncEvent {
        flags: n.flags,
        event_type: n.event_type,
        status: n.status,
        reason: n.reason,
        scan_result: ScanRecord {
            ssid: [0; 32],
            bssid: [0; 6],
            ssid_len: 0,
            channel: 0,
            rssi: 0,
        },
    };
    put_link(s, link_after(e, link_at(s)));
}

// Does a connection heed an event of type t?
#[tactic(auto, unfolding(crate::specs::EventState::is_link))]
fn is_link(t: u32) -> bool
    ensures { result ≡ to.is_link t }
{
    matches!(
        t,
        types::SET_SSID
            | types::AUTH
            | types::ASSOC
            | types::LINK
            | types::PRUNE
            | types::PSK_SUP
            | types::DEAUTH
            | types::DEAUTH_IND
            | types::DISASSOC
            | types::DISASSOC_IND
    )
}

// What a scan's status does: 0 ends the scan and it is done, 8 brings a network, any other ends it, done or not as before.
#[tactic(auto, unfolding(definition::specs::Event::scan_end))]
fn end_scan(s: &mut SessionBytes, status: u32)
    requires { is_session s.old ≡ true }
    ensures { Holds s.new (marks_put s.old (scan_end status (session_in s.old).st.scan)) }
{
    if status == SUCCESS {
        put_marks(
            s,
            ScanMarks {
                scan_done: true,
                scan_in_progress: false,
            },
        );
        return;
    }
    if status == PARTIAL {
        return;
    }
    let before = marks_at(s);
    put_marks(
        s,
        ScanMarks {
            scan_done: before.scan_done,
            scan_in_progress: false,
        },
    );
}

// The event's effect on the state.
#[tactic(auto, unfolding(handling::specs::Handle::state_after, definition::specs::Event::scan_after, definition::specs::Event::link_after, crate::specs::EventState::is_link))]
pub fn handle_numbers(s: &mut SessionBytes, n: Numbers)
    requires { is_session s.old ≡ true }
    ensures { (x : scanRecord.ScanRecord) → Holds s.new (with_state s.old (state_after (to.event_with n x) (session_in s.old).st)) }
{
    if is_link(n.event_type) {
        handle_link(s, n);
    } else if n.event_type == types::ESCAN_RESULT {
        end_scan(s, n.status);
    }
}
