// What the first call finds.
ghost use Rattle.std.specs.Prelude.{◌≡◌};
ghost use Rattle.wlan.specs.State as state;
ghost use Rattle.definition.specs.Player.{empty_list};

use wlan::setters::fresh;
use wlan::{ScanList, ScanRecord, State};

// What the Rust's `new` gives.
pub fn fresh_state() -> State
    ensures { result ≡ state.fresh }
{
    fresh()
}

pub fn fresh_list() -> ScanList
    ensures { result ≡ empty_list }
{
    let none = ScanRecord {
        ssid: [0; 32],
        bssid: [0; 6],
        ssid_len: 0,
        channel: 0,
        rssi: 0,
    };
    ScanList {
        records: [none; 32],
        count: 0,
    }
}
