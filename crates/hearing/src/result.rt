// A scan result in an event's 140 bytes: compared with the records, and laid as one, where it lies.
ghost use Rattle.std.specs.Prelude.{◌≡◌, true, [], ◌∷◌, ◌++◌, ◌+◌, ◌-◌, ◌≤◌, ◌<◌, length, take, drop, get_or, replicate};
ghost use Rattle.slices.specs.Over.{over};
ghost use Rattle.definition.specs.Scan.{same_bytes, same_network, known};
ghost use Rattle.definition.specs.Event.{scan_result_of};
ghost use Rattle.session_bytes.specs.ListBytes.{record_of, record_bytes, Whole};
ghost use Rattle.session_bytes.specs.Session.{session_in, is_session};
ghost use Rattle.places.specs.Places.{Holds};
ghost use Rattle.hearing.specs.Hearing as to;

use crate::put_count;
use session_bytes::list::put_whole;
use slices::fill_zero;
use wlan::SessionBytes;

// The N bytes from index at on.
fn bytes_at<const N: usize>(p: &[u8], at: usize) -> [u8; N]
    requires { at + N ≤ length p.now }
    ensures { result ≡ take N (drop at p.now) }
{
    let mut bytes = [0u8; N];
    bytes.copy_from_slice(&p[at..at + N]);
    bytes
}

// The same BSSID, compared as arrays of four bytes and of two: of slices it is a call, and six at once take longer where four differ.
fn same_bssid_at(s: &[u8], at: usize, e: &[u8]) -> bool
    requires at_in_bounds { at + 42 ≤ length s.now }
    requires e_len { length e.now ≡ 140 }
    ensures { result ≡ same_bytes (take 6 (drop (at + 32) s.now)) (take 6 (drop 68 e.now)) }
{
    bytes_at::<4>(s, at + 32) == bytes_at::<4>(e, 68)
        && bytes_at::<2>(s, at + 36) == bytes_at::<2>(e, 72)
}

// The same BSSID and channel, of the event e and of the record at index at.
fn same_result_at(s: &[u8], at: usize, e: &[u8]) -> bool
    requires at_in_bounds { at + 42 ≤ length s.now }
    requires e_len { length e.now ≡ 140 }
    ensures { result ≡ same_network (record_of (drop at s.now)) (scan_result_of e.now) }
{
    same_bssid_at(s, at, e) && s[at + 39] == e[132]
}

// Is the event's network among the first n records?
pub fn knows_result(s: &SessionBytes, n: usize, e: &[u8]) -> bool
    requires e_len { length e.now ≡ 140 }
    ensures { result ≡ known (take n (session_in s.now).list.records) (scan_result_of e.now) }
{
    (0..n.min(32)).any(|i| same_result_at(s, 49 + 42 * i, e))
}

// The n bytes of the SSID, and zeros.
fn put_ssid(s: &mut [u8], at: usize, e: &[u8], n: usize)
    requires at_in_bounds { at + 32 ≤ length s.old }
    requires e_len { length e.now ≡ 140 }
    requires n_bound { n ≤ 32 }
    ensures { s.new ≡ over s.old at (take n (drop 79 e.now) ++ replicate (32 - n) 0) }
{
    put_whole(s, at, &e[79..111]);
    fill_zero(s, at + n, 32 - n);
}

// What follows the SSID.
fn put_rest(s: &mut [u8], at: usize, e: &[u8], n: u8)
    requires at_in_bounds { at + 10 ≤ length s.old }
    requires e_len { length e.now ≡ 140 }
    ensures { s.new ≡ over s.old at (take 6 (drop 68 e.now) ++ (n ∷ get_or e.now 132 0 ∷ get_or e.now 138 0 ∷ get_or e.now 139 0 ∷ [])) }
{
    put_whole(s, at, &e[68..74]);
    put_whole(s, at + 6, &[n, e[132], e[138], e[139]]);
}

// The event's record; what is read from its bytes is the record. An SSID is at most 32 bytes long.
fn put_result(s: &mut [u8], at: usize, e: &[u8])
    requires at_in_bounds { at + 42 ≤ length s.old }
    requires e_len { length e.now ≡ 140 }
    ensures put { s.new ≡ over s.old at (record_bytes (scan_result_of e.now)) }
    ensures back { Whole (scan_result_of e.now) }
{
    let n = e[78].min(32);
    put_ssid(s, at, e, usize::from(n));
    put_rest(s, at + 32, e, n);
}

// The list with the event's record added; its count is n.
pub fn add_result(s: &mut SessionBytes, n: usize, e: &[u8])
    requires s_value { is_session s.old ≡ true }
    requires n_value { (n ≡ (session_in s.old).list.count) × (n < 32) }
    requires e_len { length e.now ≡ 140 }
    ensures { Holds s.new (to.with_list s.old (to.added (session_in s.old).list (scan_result_of e.now))) }
{
    put_result(s, 49 + 42 * n, e);
    put_count(s, n + 1);
}
