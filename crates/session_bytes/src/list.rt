// A record's 42 bytes, and the count's 8.
ghost use Rattle.std.specs.Prelude.{◌≡◌, ◌+◌, ◌*◌, ◌≤◌, length};
ghost use Rattle.slices.specs.Over.{over};
ghost use Rattle.slices.specs.Le.{le16_at, le32_at, signed16};
ghost use Rattle.state_bytes.specs.StateBytes.{le64};
ghost use Rattle.session_bytes.specs.ListBytes as to;

use state_bytes::numbers::unsigned16;
use wlan::ScanRecord;

// What follows a record's arrays.
fn tail_bytes(r: ScanRecord) -> [u8; 4]
    ensures { (result ≡ to.tail_bytes r) × (signed16 (le16_at result 2) ≡ r.rssi) }
{
    let [low, high] = unsigned16(r.rssi).to_le_bytes();
    [r.ssid_len, r.channel, low, high]
}

// Lays all of s, so that a compiler knows how much it is.
pub fn put_whole(out: &mut [u8], at: usize, s: &[u8])
    requires { at + length s.now ≤ length out.old }
    ensures { out.new ≡ over out.old at s.now }
{
    out[at..at + s.len()].copy_from_slice(s);
}

// What is read from the bytes is the record.
pub fn put_record(r: ScanRecord, out: &mut [u8], at: usize)
    requires { at + 42 ≤ length out.old }
    ensures put { out.new ≡ over out.old at (to.record_bytes r) }
    ensures back { to.Whole r }
{
    put_whole(out, at, &r.ssid);
    put_whole(out, at + 32, &r.bssid);
    put_whole(out, at + 38, &tail_bytes(r));
}

pub fn count_bytes(n: usize) -> [u8; 8]
    ensures { (result ≡ le64 n) × (le32_at result 0 + 4294967296 * le32_at result 4 ≡ n) }
{
    n.to_le_bytes()
}
