// take, which asks nothing of the bus and leaves the scan list.
ghost use Rattle.std.specs.Prelude.{◌≡◌, List, ℕ, length};
ghost use Rattle.wlan.specs.declared.ScanList as list;
ghost use Rattle.definition.specs.Prog.{world};
ghost use Rattle.definition.specs.Calls.{Call};
ghost use Rattle.definition.specs.Run.{called};
ghost use Rattle.going.specs.Onward.{end_of, with_list};
ghost use Rattle.ending.specs.Take as to;

use going::{CallEnd, StateEnd};
use wlan::setters::{set_frame, with_pending};
use wlan::{DriverError, Outcome, PendingBuf, Refusal, ScanList, State, Success};

pub fn with_list(e: StateEnd, list: ScanList) -> CallEnd
    ensures { result ≡ with_list e list }
{
    let outcome = e.outcome;
    let st = e.st;
    CallEnd {
        outcome: outcome,
        st: st,
        list: list,
        len: e.len,
    }
}

fn ended(o: Outcome, st: State) -> StateEnd
    ensures { result ≡ to.ended o st }
{
    StateEnd {
        outcome: o,
        st: st,
        len: 0,
    }
}

fn driver_error(e: DriverError, st: State) -> StateEnd
    ensures { result ≡ to.driver_error e st }
{
    ended(Err(Refusal::Driver(e)), st)
}

fn frameless(st: State) -> State
    ensures { result ≡ to.frameless_state st }
{
    let p = st.pending;
    with_pending(st, set_frame(p, None))
}

// A frame that waits is given out, or dropped.
fn take_frame(f: PendingBuf, st: State, buf: &[u8], out: &mut [u8]) -> StateEnd
    ensures { (log : List ℕ) (l : list.ScanList) → end_of (with_list result l) log buf.now out.new ≡ to.frame_taken f (world st buf.now l) log out.old }
{
    let s = frameless(st);
    let n = f.len as usize;
    let offset = f.offset as usize;
    if out.len() < n {
        return driver_error(DriverError::NoMem, s);
    }
    if buf.len() < offset + n {
        return driver_error(DriverError::PastBuffer, s);
    }
    slices::copy_over(out, 0, &buf[offset..offset + n]);
    ended(Ok(Success::Taken(f.len)), s)
}

pub fn take(st: State, buf: &[u8], out: &mut [u8]) -> StateEnd
    ensures { (rec log : List ℕ) (l : list.ScanList) → end_of (with_list result l) log buf.now out.new ≡ called (Call.get_rx_buf (length out.old)) (world st buf.now l) rec log out.old }
{
    if buf.len() != 2048 {
        return ended(Err(Refusal::BufferLength), st);
    }
    let p = st.pending;
    let rx = p.rx;
    match rx {
        None => driver_error(DriverError::WouldBlock, st),
        Some(f) => take_frame(f, st, buf, out),
    }
}
