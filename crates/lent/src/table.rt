// The calls over a lent table.
ghost use Rattle.std.specs.Prelude.{◌≡◌, length};
ghost use Rattle.slices.specs.Pick.{pick};
ghost use Rattle.definition.specs.Prog.{world};
ghost use Rattle.going.specs.Onward.{end_of};
ghost use Rattle.scan_table.specs.Table.{list_of};
ghost use Rattle.lent_calls.specs.Lent.{call_of, has_output, output_of, called_on, with_list};

use lent_calls::{LentEnd, WifiCall, on_list};
use scan_table::table::{list_in, put_list};
use wlan::{ScanRecord, State};

// The table's first `count` records are the networks heard. A table that has not 32 records is refused with 13, and left as it is.
pub fn wifi_call(
    c: WifiCall,
    a: &[u8],
    b: &[u8],
    st: State,
    table: &mut [ScanRecord],
    count: usize,
    rec: &[u32],
    log: &mut [u32],
    buf: &mut [u8],
    out: &mut [u8],
) -> LentEnd
    ensures { (end_of (with_list result table.new) log.new buf.new (output_of c out.new) ≡ called_on (length table.old) (call_of c a.now b.now (length out.old)) (world st buf.old (list_of table.old count)) rec.now log.old (output_of c out.old)) × ((out.new ≡ pick (has_output c) out.new out.old) × ((length table.old ≡ 32 → ⊥) → table.new ≡ table.old)) }
{
    let l = list_in(table, count);
    let e = on_list(table.len(), c, a, b, st, l, rec, log, buf, out);
    put_list(table, e.list);
    LentEnd::from(e)
}
