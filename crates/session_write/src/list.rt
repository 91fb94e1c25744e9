// The scan list's 1,352 bytes: the count, then 32 records of 42 bytes.
ghost use Rattle.std.specs.Prelude.{◌≡◌, length};
ghost use Rattle.slices.specs.Over.{over};
ghost use Rattle.session_bytes.specs.ListBytes as to;

use session_bytes::list::{count_bytes, put_record};
use slices::copy_over;
use wlan::{ScanList, ScanRecord, SessionBytes};

fn put_records(records: [ScanRecord; 32], out: &mut SessionBytes)
    ensures put { out.new ≡ over out.old 49 (to.records_bytes records) }
    ensures back { (length records ≡ 32) × to.EachWhole records }
{
    for i in 0..32 {
        put_record(records[i], out, 49 + 42 * i);
    }
}

// The bytes lie from 41 on; what is read from them is the list.
pub fn put_list(l: ScanList, out: &mut SessionBytes)
    ensures put { out.new ≡ over out.old 41 (to.list_bytes l) }
    ensures back { (length (to.list_bytes l) ≡ 1352) × (to.list_in (to.list_bytes l) ≡ l) }
{
    copy_over(out, 41, &count_bytes(l.count));
    put_records(l.records, out);
}
