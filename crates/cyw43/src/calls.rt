// init, scan, join, leave, abort, poll.
ghost use Rattle.std.specs.Prelude.{◌≡◌, []};
ghost use Rattle.definition.specs.Prog.{world};
ghost use Rattle.definition.specs.Calls.{Call};
ghost use Rattle.definition.specs.Run.{called};
ghost use Rattle.going.specs.Onward.{end_of};

use call::{exchanges, plain, poll};
use going::CallEnd;
use jobs::ExchangeCall;
use wlan::{ScanList, State};

pub fn wifi_init(
    country: u32,
    st: State,
    list: ScanList,
    rec: &[u32],
    log: &mut [u32],
    buf: &mut [u8],
) -> CallEnd
    ensures { end_of result log.new buf.new [] ≡ called (Call.wifi_init country) (world st buf.old list) rec.now log.old [] }
{
    plain(ExchangeCall::Init(country), st, list, rec, log, buf)
}

pub fn wifi_scan(st: State, list: ScanList, rec: &[u32], log: &mut [u32], buf: &mut [u8]) -> CallEnd
    ensures { end_of result log.new buf.new [] ≡ called Call.wifi_scan (world st buf.old list) rec.now log.old [] }
{
    plain(ExchangeCall::Scan, st, list, rec, log, buf)
}

pub fn wifi_connect(
    auth: u32,
    ssid: &[u8],
    passphrase: &[u8],
    st: State,
    list: ScanList,
    rec: &[u32],
    log: &mut [u32],
    buf: &mut [u8],
) -> CallEnd
    ensures { end_of result log.new buf.new [] ≡ called (Call.wifi_connect auth ssid.now passphrase.now) (world st buf.old list) rec.now log.old [] }
{
    exchanges(
        ExchangeCall::Connect(auth),
        ssid,
        passphrase,
        st,
        list,
        rec,
        log,
        buf,
    )
}

pub fn wifi_disconnect(
    st: State,
    list: ScanList,
    rec: &[u32],
    log: &mut [u32],
    buf: &mut [u8],
) -> CallEnd
    ensures { end_of result log.new buf.new [] ≡ called Call.wifi_disconnect (world st buf.old list) rec.now log.old [] }
{
    plain(ExchangeCall::Disconnect, st, list, rec, log, buf)
}

pub fn wifi_abort_connect(
    st: State,
    list: ScanList,
    rec: &[u32],
    log: &mut [u32],
    buf: &mut [u8],
) -> CallEnd
    ensures { end_of result log.new buf.new [] ≡ called Call.wifi_abort_connect (world st buf.old list) rec.now log.old [] }
{
    plain(ExchangeCall::AbortConnect, st, list, rec, log, buf)
}

pub fn wifi_poll(st: State, list: ScanList, rec: &[u32], log: &mut [u32], buf: &mut [u8]) -> CallEnd
    ensures { end_of result log.new buf.new [] ≡ called Call.wifi_poll (world st buf.old list) rec.now log.old [] }
{
    poll(st, list, rec, log, buf)
}
