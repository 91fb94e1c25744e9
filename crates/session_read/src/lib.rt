// State and scan list from a session's bytes.
#![tactic(auto)]

ghost use Rattle.std.specs.Prelude.{◌≡◌, true, ◌+◌, ◌≤◌, length, take, drop};
ghost use Rattle.session_bytes.specs.ListBytes as to;
ghost use Rattle.session_bytes.specs.Session.{is_session, session_in};

use places_read::{frame_at, link_at, marks_at, reply_at, sdpcm_at};
use signed::signed16;
use wlan::{Pending, ScanList, ScanRecord, SessionBytes, State};

pub fn state_in(bytes: &SessionBytes) -> State
    requires { is_session bytes.now ≡ true }
    ensures { result ≡ (session_in bytes.now).st }
{
    State {
        sdpcm: sdpcm_at(bytes),
        pending: Pending {
            ioctl_resp: reply_at(bytes),
            rx: frame_at(bytes),
        },
        scan: marks_at(bytes),
        link: link_at(bytes),
    }
}

// The N bytes from index at on.
fn bytes_at<const N: usize>(p: &[u8], at: usize) -> [u8; N]
    requires { at + N ≤ length p.now }
    ensures { result ≡ take N (drop at p.now) }
{
    let mut bytes = [0u8; N];
    bytes.copy_from_slice(&p[at..at + N]);
    bytes
}

fn bssid_in(p: &[u8]) -> [u8; 6]
    requires { 42 ≤ length p.now }
    ensures { result ≡ take 6 (drop 32 p.now) }
{
    [p[32], p[33], p[34], p[35], p[36], p[37]]
}

// The record that the first 42 bytes hold.
fn record_in(p: &[u8]) -> ScanRecord
    requires { 42 ≤ length p.now }
    ensures { result ≡ to.record_of p.now }
{
    ScanRecord {
        ssid: bytes_at(p, 0),
        bssid: bssid_in(p),
        ssid_len: p[38],
        channel: p[39],
        rssi: signed16(u16::from_le_bytes([p[40], p[41]])),
    }
}

fn records_in(p: &[u8]) -> [ScanRecord; 32]
    requires { length p.now ≡ 1352 }
    ensures { result ≡ to.records_from 32 (drop 8 p.now) }
{
    let none = ScanRecord {
        ssid: [0; 32],
        bssid: [0; 6],
        ssid_len: 0,
        channel: 0,
        rssi: 0,
    };
    let mut l = [none; 32];
    for i in 0..32 {
        l[i] = record_in(&p[8 + 42 * i..]);
    }
    l
}

// The list that the bytes hold.
pub fn list_in(p: &[u8]) -> ScanList
    requires { length p.now ≡ 1352 }
    ensures { result ≡ to.list_in p.now }
{
    ScanList {
        records: records_in(p),
        count: usize::from_le_bytes(bytes_at(p, 0)),
    }
}

pub fn list_of(bytes: &SessionBytes) -> ScanList
    ensures { result ≡ (session_in bytes.now).list }
{
    list_in(&bytes[41..])
}
