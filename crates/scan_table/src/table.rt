// The lent table. Its first `count` records are the networks heard.
ghost use Rattle.std.specs.Prelude.{◌≡◌, get_or};
ghost use Rattle.definition.specs.Scan as def;
ghost use Rattle.scan_table.specs.Table.{empty_record, list_of, laid};

use crate::list::{empty_list, empty_record};
use events::scan::heard;
use wlan::{ScanList, ScanRecord};

// The record at index i, empty where there is no such index.
pub fn record_at(table: &[ScanRecord], i: usize) -> ScanRecord
    ensures { result ≡ get_or table.now i empty_record }
{
    table.get(i).copied().unwrap_or(empty_record())
}

// The table's first 32 records as a list.
pub fn list_in(table: &[ScanRecord], count: usize) -> ScanList
    ensures { result ≡ list_of table.now count }
{
    let mut records = empty_list(count).records;
    let n = table.len().min(records.len());
    records[..n].copy_from_slice(&table[..n]);
    ScanList { records, count }
}

// Lays a list's records in the table, as much as fits.
pub fn put_list(table: &mut [ScanRecord], l: ScanList)
    ensures { table.new ≡ laid table.old l }
{
    let n = l.records.len().min(table.len());
    table[..n].copy_from_slice(&l.records[..n]);
}

// Adds a record that was heard, unless its network is known or the list is full; gives the new count.
// Of a table that has fewer than 32 records a record past the end is not kept, though it is counted.
pub fn hear(table: &mut [ScanRecord], count: usize, r: ScanRecord) -> usize
    ensures { (result ≡ (def.heard (list_of table.old count) r).count) × (table.new ≡ laid table.old (def.heard (list_of table.old count) r)) }
{
    let l = heard(list_in(table, count), r);
    put_list(table, l);
    l.count
}
