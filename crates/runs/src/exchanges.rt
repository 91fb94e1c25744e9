// The calls that are exchanges.
ghost use Rattle.std.specs.Prelude.{◌≡◌, true, [], ◌+◌, ◌<◌, length, drop};
ghost use Rattle.definition.specs.Event.{event_of};
ghost use Rattle.definition.specs.Prog.{World};
ghost use Rattle.control.specs.Meaning.{lens_of, call_shown};
ghost use Rattle.effects.specs.Args.{args_of};
ghost use Rattle.jobs.specs.Jobs.{call_of};
ghost use Rattle.session_bytes.specs.Session.{is_session, session_in};
ghost use Rattle.going.specs.Onward.{go};
ghost use Rattle.starting.specs.Starting.{job_of, step_of};
ghost use Rattle.turning.specs.Turning as turning;
ghost use Rattle.turning.specs.Turning.{world_in};
ghost use Rattle.undo.specs.Undo.{Kept};
ghost use Rattle.runs.specs.Runs as to;

use exchange_call::exchange_run;
use jobs::ExchangeCall;
use jobs::jobs::{at_most, longest};
use run_end::{RunEnd, done_end, error_end};
use starting::Start;
use starting::calls::start;
use turning::settle;
use undo::keep_front;
use wlan::{SessionBytes, UndoBytes, WorkBuffer};

// From a call's beginning to its end.
fn start_run(
    x: Start,
    s: &mut SessionBytes,
    undo: &mut UndoBytes,
    rec: &[u32],
    log: &mut [u32],
    buf: &mut WorkBuffer,
    first: &[u8],
    second: &[u8],
) -> RunEnd
    requires s_value { is_session s.old ≡ true }
    requires kept_2 { Kept undo.old }
    requires second_len_bound { length first.now + length second.now < 60000 }
    ensures on { (e : World) → turning.Ends e (go e (drop 0 rec.now) log.old 0 (call_shown (args_of (job_of x) first.now second.now) (step_of x (lens_of (args_of (job_of x) first.now second.now)) (session_in s.old).st) (event_of [] 0) (world_in s.old buf.old))) result log.new s.new buf.new }
    ensures held { is_session s.new ≡ true }
    ensures kept { turning.KeptAll undo.old undo.new s.old s.new buf.old buf.new }
{
    match x {
        Start::Exchange(j, g) => exchange_run(j, g, s, undo, rec, log, buf, first, second),
        Start::Done => done_end(0),
        Start::Refused(e) => error_end(e, 0),
    }
}

// a and b: its byte arguments; of one that is longer than the call takes, nothing is used.
fn call_exchanges(
    c: ExchangeCall,
    a: &[u8],
    b: &[u8],
    s: &mut SessionBytes,
    undo: &mut UndoBytes,
    rec: &[u32],
    log: &mut [u32],
    buf: &mut WorkBuffer,
) -> RunEnd
    requires s_value { is_session s.old ≡ true }
    requires kept { Kept undo.old }
    ensures { to.Runs (call_of c a.now b.now) rec.now log.old log.new undo.old undo.new s.old s.new buf.old buf.new result }
{
    let most = longest(c);
    let n = at_most(most.first as usize, a.len());
    let m = at_most(most.second as usize, b.len());
    let x = start(c, a, b, s);
    start_run(x, s, undo, rec, log, buf, &a[..n], &b[..m])
}

pub fn run_exchanges(
    c: ExchangeCall,
    a: &[u8],
    b: &[u8],
    s: &mut SessionBytes,
    undo: &mut UndoBytes,
    rec: &[u32],
    log: &mut [u32],
    buf: &mut WorkBuffer,
) -> RunEnd
    requires s_value { is_session s.old ≡ true }
    ensures { to.Ran (call_of c a.now b.now) rec.now log.old log.new s.old s.new buf.old buf.new result }
{
    keep_front(undo, s);
    let r = call_exchanges(c, a, b, s, undo, rec, log, buf);
    settle(r, s, undo, buf);
    r
}
