// A call as a value, and its run on a list by value.
#![tactic(auto)]

ghost use Rattle.std.specs.Prelude.{◌≡◌, length};
ghost use Rattle.slices.specs.Pick.{pick};
ghost use Rattle.definition.specs.Prog.{world};
ghost use Rattle.definition.specs.Run.{called};
ghost use Rattle.going.specs.Onward.{end_of};
ghost use Rattle.lent_calls.specs.Lent.{call_of, has_output, output_of, called_on};

use ending::take::{take, with_list};
use going::CallEnd;
use jobs::ExchangeCall;
use wlan::{Outcome, Refusal, ScanList, State};

// A call with its numbers. The bytes that it takes are lent beside it: SSID and passphrase, a frame, a variable's name and data.
#[derive(Clone, Copy)]
pub enum WifiCall {
    Exchanges(ExchangeCall),
    Poll,
    // Interface.
    SendData(u32),
    GetRxBuf,
}

// What a call hands back beside its lent slices; len: the words of the log.
#[derive(Clone, Copy)]
pub struct LentEnd {
    pub outcome: Outcome,
    pub st: State,
    pub count: usize,
    pub len: usize,
}

// The exported call.
fn by_value(
    c: WifiCall,
    a: &[u8],
    b: &[u8],
    st: State,
    list: ScanList,
    rec: &[u32],
    log: &mut [u32],
    buf: &mut [u8],
    out: &mut [u8],
) -> CallEnd
    ensures { (end_of result log.new buf.new (output_of c out.new) ≡ called (call_of c a.now b.now (length out.old)) (world st buf.old list) rec.now log.old (output_of c out.old)) × (out.new ≡ pick (has_output c) out.new out.old) }
{
    match c {
        WifiCall::Exchanges(x) => call::exchanges(x, a, b, st, list, rec, log, buf),
        WifiCall::Poll => call::poll(st, list, rec, log, buf),
        WifiCall::SendData(interface) => call::send(interface, a, st, list, rec, log, buf),
        WifiCall::GetRxBuf => with_list(take(st, buf, out), list),
    }
}

// Where the table has n records.
pub fn on_list(
    n: usize,
    c: WifiCall,
    a: &[u8],
    b: &[u8],
    st: State,
    list: ScanList,
    rec: &[u32],
    log: &mut [u32],
    buf: &mut [u8],
    out: &mut [u8],
) -> CallEnd
    ensures { (end_of result log.new buf.new (output_of c out.new) ≡ called_on n (call_of c a.now b.now (length out.old)) (world st buf.old list) rec.now log.old (output_of c out.old)) × (out.new ≡ pick (has_output c) out.new out.old) }
{
    if n == 32 {
        return by_value(c, a, b, st, list, rec, log, buf, out);
    }
    CallEnd {
        outcome: Err(Refusal::BufferLength),
        st: st,
        list: list,
        len: 0,
    }
}

impl From<CallEnd> for LentEnd {
    ghost from_gives = { λ e r. (r.outcome ≡ e.outcome) × ((r.st ≡ e.st) × ((r.count ≡ e.list.count) × (r.len ≡ e.len))) };

    fn from(e: CallEnd) -> LentEnd {
        LentEnd {
            outcome: e.outcome,
            st: e.st,
            count: e.list.count,
            len: e.len,
        }
    }
}
