// A scan list by value, record by record.
ghost use Rattle.std.specs.Prelude.{◌≡◌, List, ℕ};
ghost use Rattle.wlan.specs.declared.ScanRecord as declared;
ghost use Rattle.definition.specs.Scan.{cleared};
ghost use Rattle.scan_table.specs.Table.{empty_record, empty_records, list_of};

use wlan::{ScanList, ScanRecord};

pub fn empty_record() -> ScanRecord
    ensures { result ≡ empty_record }
{
    ScanRecord {
        ssid: [0; 32],
        bssid: [0; 6],
        ssid_len: 0,
        channel: 0,
        rssi: 0,
    }
}

pub fn empty_list(count: usize) -> ScanList
    ensures { (result.records ≡ empty_records) × (result.count ≡ count) }
{
    let none = empty_record();
    ScanList {
        records: [none; 32],
        count,
    }
}

// A cleared list's count: its records are left.
pub fn clear() -> usize
    ensures { (table : List declared.ScanRecord) (count : ℕ) → list_of table result ≡ cleared (list_of table count) }
{
    0
}
