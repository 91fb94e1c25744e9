// GPIO, MAC, get, set, variable, up: calls that are one exchange.
ghost use Rattle.std.specs.Prelude.{◌≡◌, []};
ghost use Rattle.definition.specs.Prog.{world};
ghost use Rattle.definition.specs.Calls.{Call};
ghost use Rattle.definition.specs.Run.{called};
ghost use Rattle.going.specs.Onward.{end_of};

use call::{exchanges, plain};
use going::CallEnd;
use jobs::ExchangeCall;
use wlan::{ScanList, State};

pub fn gpio_set(
    pin: u32,
    level: u32,
    st: State,
    list: ScanList,
    rec: &[u32],
    log: &mut [u32],
    buf: &mut [u8],
) -> CallEnd
    ensures { end_of result log.new buf.new [] ≡ called (Call.gpio_set pin level) (world st buf.old list) rec.now log.old [] }
{
    plain(ExchangeCall::GpioSet(pin, level), st, list, rec, log, buf)
}

pub fn get_mac_addr(
    st: State,
    list: ScanList,
    rec: &[u32],
    log: &mut [u32],
    buf: &mut [u8],
) -> CallEnd
    ensures { end_of result log.new buf.new [] ≡ called Call.get_mac_addr (world st buf.old list) rec.now log.old [] }
{
    plain(ExchangeCall::GetMacAddr, st, list, rec, log, buf)
}

pub fn get_ioctl(
    cmd: u32,
    interface: u32,
    st: State,
    list: ScanList,
    rec: &[u32],
    log: &mut [u32],
    buf: &mut [u8],
) -> CallEnd
    ensures { end_of result log.new buf.new [] ≡ called (Call.get_ioctl cmd interface) (world st buf.old list) rec.now log.old [] }
{
    plain(
        ExchangeCall::GetIoctl(cmd, interface),
        st,
        list,
        rec,
        log,
        buf,
    )
}

pub fn set_ioctl(
    cmd: u32,
    value: u32,
    interface: u32,
    st: State,
    list: ScanList,
    rec: &[u32],
    log: &mut [u32],
    buf: &mut [u8],
) -> CallEnd
    ensures { end_of result log.new buf.new [] ≡ called (Call.set_ioctl cmd value interface) (world st buf.old list) rec.now log.old [] }
{
    plain(
        ExchangeCall::SetIoctl(cmd, value, interface),
        st,
        list,
        rec,
        log,
        buf,
    )
}

pub fn write_iovar(
    interface: u32,
    name: &[u8],
    bytes: &[u8],
    st: State,
    list: ScanList,
    rec: &[u32],
    log: &mut [u32],
    buf: &mut [u8],
) -> CallEnd
    ensures { end_of result log.new buf.new [] ≡ called (Call.write_iovar interface name.now bytes.now) (world st buf.old list) rec.now log.old [] }
{
    exchanges(
        ExchangeCall::WriteIovar(interface),
        name,
        bytes,
        st,
        list,
        rec,
        log,
        buf,
    )
}

pub fn up(st: State, list: ScanList, rec: &[u32], log: &mut [u32], buf: &mut [u8]) -> CallEnd
    ensures { end_of result log.new buf.new [] ≡ called Call.up (world st buf.old list) rec.now log.old [] }
{
    plain(ExchangeCall::Up, st, list, rec, log, buf)
}
