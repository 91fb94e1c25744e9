// A call by value: state and scan list go into a session's bytes, the call runs on them, and they are read from the bytes again.
#![tactic(auto)]

ghost use Rattle.std.specs.Prelude.{◌≡◌, true, List, [], ℕ, Err};
ghost use Rattle.wlan.specs.declared.Refusal as refusal;
ghost use Rattle.definition.specs.Bus.{Bytes};
ghost use Rattle.definition.specs.Prog.{world};
ghost use Rattle.definition.specs.Calls.{Call};
ghost use Rattle.definition.specs.Run.{End, called};
ghost use Rattle.jobs.specs.Jobs.{call_of};
ghost use Rattle.session_bytes.specs.Session.{is_session};
ghost use Rattle.going.specs.Onward.{end_of};
ghost use Rattle.runs.specs.Runs.{Left};

use going::CallEnd;
use jobs::ExchangeCall;
use outcomes::outcome::outcome_of;
use run_end::RunEnd;
use runs::exchanges::run_exchanges;
use runs::frames::run_send;
use runs::polling::run_poll;
use session_bytes::session::Session;
use session_read::{list_of, state_in};
use session_write::put_session;
use wlan::{
    Outcome, Refusal, SESSION_LEN, ScanList, SessionBytes, State, UNDO_LEN, WORK_BUFFER_LEN,
};

// What the run left in the bytes s.
fn end_of(r: RunEnd, s: &SessionBytes) -> CallEnd
    requires { is_session s.now ≡ true }
    ensures { (e : End) (log : List ℕ) (buf : Bytes) → Left e log s.now buf r → end_of result log buf [] ≡ e }
{
    CallEnd {
        outcome: outcome_of(r),
        st: state_in(s),
        list: list_of(s),
        len: r.len,
    }
}

// 13: nothing is changed.
fn other_length(st: State, list: ScanList) -> CallEnd
    ensures { (result.outcome ≡ Err refusal.Refusal.BufferLength) × (result.st ≡ st) × (result.list ≡ list) × (result.len ≡ 0) }
{
    CallEnd {
        outcome: Err(Refusal::BufferLength),
        st: st,
        list: list,
        len: 0,
    }
}

// The calls that are exchanges; a and b: the byte arguments.
pub fn exchanges(
    c: ExchangeCall,
    a: &[u8],
    b: &[u8],
    st: State,
    list: ScanList,
    rec: &[u32],
    log: &mut [u32],
    buf: &mut [u8],
) -> CallEnd
    ensures { end_of result log.new buf.new [] ≡ called (call_of c a.now b.now) (world st buf.old list) rec.now log.old [] }
{
    let Some(buf) = buf.as_mut_array::<WORK_BUFFER_LEN>() else {
        return other_length(st, list);
    };
    let mut s = [0u8; SESSION_LEN];
    let mut undo = [0u8; UNDO_LEN];
    put_session(Session { st: st, list: list }, &mut s);
    let r = run_exchanges(c, a, b, &mut s, &mut undo, rec, log, buf);
    end_of(r, &s)
}

// Those without byte arguments.
pub fn plain(
    c: ExchangeCall,
    st: State,
    list: ScanList,
    rec: &[u32],
    log: &mut [u32],
    buf: &mut [u8],
) -> CallEnd
    ensures { end_of result log.new buf.new [] ≡ called (call_of c [] []) (world st buf.old list) rec.now log.old [] }
{
    let none = [0u8; 0];
    exchanges(c, &none, &none, st, list, rec, log, buf)
}

pub fn poll(st: State, list: ScanList, rec: &[u32], log: &mut [u32], buf: &mut [u8]) -> CallEnd
    ensures { end_of result log.new buf.new [] ≡ called (Call.wifi_poll) (world st buf.old list) rec.now log.old [] }
{
    let Some(buf) = buf.as_mut_array::<WORK_BUFFER_LEN>() else {
        return other_length(st, list);
    };
    let mut s = [0u8; SESSION_LEN];
    let mut undo = [0u8; UNDO_LEN];
    put_session(Session { st: st, list: list }, &mut s);
    let r = run_poll(&mut s, &mut undo, rec, log, buf);
    end_of(r, &s)
}

pub fn send(
    interface: u32,
    frame: &[u8],
    st: State,
    list: ScanList,
    rec: &[u32],
    log: &mut [u32],
    buf: &mut [u8],
) -> CallEnd
    ensures { end_of result log.new buf.new [] ≡ called (Call.send_data interface frame.now) (world st buf.old list) rec.now log.old [] }
{
    let Some(buf) = buf.as_mut_array::<WORK_BUFFER_LEN>() else {
        return other_length(st, list);
    };
    let mut s = [0u8; SESSION_LEN];
    let mut undo = [0u8; UNDO_LEN];
    put_session(Session { st: st, list: list }, &mut s);
    let r = run_send(interface, frame, &mut s, &mut undo, rec, log, buf);
    end_of(r, &s)
}
