// send and take.
ghost use Rattle.std.specs.Prelude.{◌≡◌, List, [], ℕ, length};
ghost use Rattle.definition.specs.Prog.{world};
ghost use Rattle.definition.specs.Calls.{Call};
ghost use Rattle.definition.specs.Run.{called};
ghost use Rattle.going.specs.Onward.{end_of};

use call::send;
use ending::take::{take, with_list};
use going::CallEnd;
use wlan::{ScanList, State};

pub fn send_data(
    interface: u32,
    frame: &[u8],
    st: State,
    list: ScanList,
    rec: &[u32],
    log: &mut [u32],
    buf: &mut [u8],
) -> CallEnd
    ensures { end_of result log.new buf.new [] ≡ called (Call.send_data interface frame.now) (world st buf.old list) rec.now log.old [] }
{
    send(interface, frame, st, list, rec, log, buf)
}

// The recording is not read, and no operation logged.
pub fn get_rx_buf(st: State, list: ScanList, buf: &[u8], out: &mut [u8]) -> CallEnd
    ensures { (rec log : List ℕ) → end_of result log buf.now out.new ≡ called (Call.get_rx_buf (length out.old)) (world st buf.now list) rec log out.old }
{
    with_list(take(st, buf, out), list)
}
