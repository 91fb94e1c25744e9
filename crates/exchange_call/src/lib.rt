// A call's exchanges over its recording, on a session's bytes: the loop over the exchanges.
#![tactic(auto)]

ghost use Rattle.std.specs.Prelude.{◌≡◌, true, false, List, [], ℕ, ◌+◌, ◌<◌, ◌≤◌, length, drop, Ok, Err};
ghost use Rattle.wlan.specs.declared.State.{State};
ghost use Rattle.definition.specs.Bus.{Bytes};
ghost use Rattle.definition.specs.Event.{event_of};
ghost use Rattle.definition.specs.Prog.{World};
ghost use Rattle.definition.specs.Run.{End};
ghost use Rattle.device.specs.declared.Arrival.{Arrival};
ghost use Rattle.control.specs.declared.Before.{Before};
ghost use Rattle.control.specs.declared.CallNext as next;
ghost use Rattle.control.specs.declared.Job as job;
ghost use Rattle.control.specs.declared.Lens as lens;
ghost use Rattle.control.specs.Steps.{pause_ns, call_op};
ghost use Rattle.control.specs.Meaning.{Args, lens_of, call_tree, call_shown, success_of};
ghost use Rattle.effects.specs.Args.{args_of};
ghost use Rattle.control.specs.Begin.{exchanges_step, call_answer};
ghost use Rattle.session_bytes.specs.Session.{is_session, session_in};
ghost use Rattle.going.specs.Onward.{go};
ghost use Rattle.asking.specs.Asking.{Asks};
ghost use Rattle.undo.specs.Undo.{Kept};
ghost use Rattle.plans.specs.Plans as plans;
ghost use Rattle.exchanging.specs.Exchanging as at;
ghost use Rattle.run_end.specs.RunEnd as ending;
ghost use Rattle.turning.specs.Turning as turning;
ghost use Rattle.ioctl_call.specs.IoctlCall as ioctl;
ghost use Rattle.exchange_call.specs.ExchangeCall as to;
ghost use Rattle.wlan.specs.Results.{fault_at};

use asking::{Asked, ask_clock, ask_tick, ask_wait};
use control::{Ending, Job, Lens, Stage};
use effects::args::lens;
use effects::outcome::success_of;
use exchanging::act::act;
use exchanging::begin::stage_len;
use exchanging::now::{CallKind, CallNow};
use ioctl_call::ioctl_run;
use plans::{PauseKind, Plan, begins, clock_plan, exchange_plan, fault_plan, resume_of, tick_plan};
use reply_points::IoctlAt;
use run_end::{RunEnd, done_end, error_end, success_end};
use turning::{back_end, is_back};
use wlan::{SessionBytes, UndoBytes, WorkBuffer};

// It goes on with a plan, or is over. end.len: how many words are in the log.
#[derive(Clone, Copy)]
pub struct CallTurned {
    pub on: bool,
    pub plan: Plan,
    pub pos: usize,
    pub end: RunEnd,
}

fn onward(f: Plan, pos: usize, len: usize) -> CallTurned
    ensures { (result.on ≡ true) × (result.plan ≡ f) × (result.pos ≡ pos) × (result.end.len ≡ len) }
{
    CallTurned {
        on: true,
        plan: f,
        pos: pos,
        end: done_end(len),
    }
}

fn over(end: RunEnd) -> CallTurned
    ensures { (result.on ≡ false) × (result.end ≡ end) }
{
    CallTurned {
        on: false,
        plan: begins(Stage::Single),
        pos: 0,
        end: end,
    }
}

// What a call gives at its end.
fn ending_end(e: Ending, buf: &[u8], len: usize) -> RunEnd
    ensures { (result ≡ ending.end_by (Ok (success_of e buf.now)) len) × ending.SuccessFits (success_of e buf.now) }
{
    success_end(success_of(e, buf), len)
}

// Stage g's exchange, from the operation at p on, and what follows it.
fn exchange_turn(
    j: Job,
    l: Lens,
    g: Stage,
    p: IoctlAt,
    pos: usize,
    len: usize,
    s: &mut SessionBytes,
    undo: &mut UndoBytes,
    rec: &[u32],
    log: &mut [u32],
    buf: &mut WorkBuffer,
) -> CallTurned
    requires s_value { is_session s.old ≡ true }
    requires kept_2 { Kept undo.old }
    requires len_in_bounds { len ≤ length log.old }
    ensures on { (first second : Bytes) → length first + length second < 60000 → l ≡ lens_of (args_of j first second) → (e : World) → to.Turns (args_of j first second) e (ioctl.asked_at (args_of j first second) g e rec.now log.old pos len p s.old buf.old) rec.now result log.new s.new buf.new }
    ensures held { is_session s.new ≡ true }
    ensures kept { turning.KeptAll undo.old undo.new s.old s.new buf.old buf.new }
    ensures grew { result.on ≡ true → (len < result.end.len) × (result.end.len ≤ length log.old) }
{
    let t = ioctl_run(stage_len(j, g, l), p, pos, len, s, undo, rec, log, buf);
    let a = t.asked;
    let n = t.now;
    if is_back(a) {
        return over(back_end(a));
    }
    onward(exchange_plan(j, g, undo, buf, n), a.pos, a.len)
}

fn pause_ns(p: PauseKind, ns: u32) -> u32
    ensures { result ≡ pause_ns (plans.pause_by p ns) }
{
    match p {
        PauseKind::AfterCountry => 50_000_000,
        PauseKind::Settle => ns,
        PauseKind::AfterEventMessages => 50_000_000,
        PauseKind::AfterUp => 50_000_000,
        PauseKind::BeforeKey => 2_000_000,
        PauseKind::BeforeSae => 2_000_000,
    }
}

// Asks for init's clock, leave's tick, or else a wait.
fn ask_at(
    k: CallKind,
    p: PauseKind,
    ns: u32,
    pos: usize,
    len: usize,
    rec: &[u32],
    log: &mut [u32],
) -> Asked
    ensures { (b : Bytes) → Asks (call_op (to.point_by k p ns)) rec.now log.old log.new pos len b b result }
{
    match k {
        CallKind::Clock => ask_clock(pos, len, rec, log),
        CallKind::Tick => ask_tick(pos, len, rec, log),
        _ => ask_wait(pause_ns(p, ns), pos, len, log),
    }
}

// What follows the clock, the tick or a wait.
fn answer_plan(k: CallKind, p: PauseKind, fault: bool, v: u64) -> Plan
    ensures faulted { fault ≡ true → v < 256 → (ns : ℕ) (j : job.Job) (l : lens.Lens) (s : State) (z : Arrival) → call_answer j l s (to.point_by k p ns) (Err (fault_at v)) z ≡ plans.planned result j l s false Before.None }
    ensures told { fault ≡ false → (ns : ℕ) (j : job.Job) (l : lens.Lens) (s : State) (z : Arrival) → call_answer j l s (to.point_by k p ns) (Ok v) z ≡ plans.planned result j l s false Before.None }
{
    match k {
        CallKind::Clock => {
            if fault {
                return fault_plan((v % 256) as u8);
            }
            return clock_plan(v);
        }
        CallKind::Tick => {
            if fault {
                return fault_plan((v % 256) as u8);
            }
            return tick_plan(v);
        }
        _ => return resume_of(p),
    }
}

// The clock, the tick or a wait, and what follows it.
fn wait_turn(
    k: CallKind,
    p: PauseKind,
    ns: u32,
    pos: usize,
    len: usize,
    rec: &[u32],
    log: &mut [u32],
) -> CallTurned
    ensures on { (a : Args) (e : World) (b : List ℕ) (buf : Bytes) → length a.first + length a.second < 60000 → to.Turns a e (go e (drop pos rec.now) log.old len (call_tree a (next.CallNext.Ask (to.point_by k p ns)) (turning.world_in b buf))) rec.now result log.new b buf }
    ensures grew { result.on ≡ true → (len < result.end.len) × (result.end.len ≤ length log.old) }
{
    let a = ask_at(k, p, ns, pos, len, rec, log);
    if is_back(a) {
        return over(back_end(a));
    }
    onward(answer_plan(k, p, a.fault, a.value), a.pos, a.len)
}

// From where a call stands to its next plan.
fn stand(
    j: Job,
    l: Lens,
    n: CallNow,
    pos: usize,
    len: usize,
    s: &mut SessionBytes,
    undo: &mut UndoBytes,
    rec: &[u32],
    log: &mut [u32],
    buf: &mut WorkBuffer,
) -> CallTurned
    requires s_value { is_session s.old ≡ true }
    requires kept_2 { Kept undo.old }
    requires len_in_bounds { len ≤ length log.old }
    ensures on { (first second : Bytes) → length first + length second < 60000 → l ≡ lens_of (args_of j first second) → (e : World) → to.Turns (args_of j first second) e (go e (drop pos rec.now) log.old len (call_tree (args_of j first second) (at.next_of n) (turning.world_in s.old buf.old))) rec.now result log.new s.new buf.new }
    ensures held { is_session s.new ≡ true }
    ensures kept { turning.KeptAll undo.old undo.new s.old s.new buf.old buf.new }
    ensures grew { result.on ≡ true → (len < result.end.len) × (result.end.len ≤ length log.old) }
{
    let k = n.kind;
    match k {
        CallKind::Exchange => {
            let g = n.stage;
            let p = n.at;
            exchange_turn(j, l, g, p, pos, len, s, undo, rec, log, buf)
        }
        CallKind::Ended => {
            let e = n.ending;
            over(ending_end(e, buf, len))
        }
        CallKind::Refused => {
            let x = n.error;
            over(error_end(x, len))
        }
        _ => {
            let pause = n.pause;
            wait_turn(k, pause, n.ns, pos, len, rec, log)
        }
    }
}

// What the call does next, to its next plan.
fn call_turn(
    j: Job,
    l: Lens,
    f: Plan,
    pos: usize,
    len: usize,
    s: &mut SessionBytes,
    undo: &mut UndoBytes,
    rec: &[u32],
    log: &mut [u32],
    buf: &mut WorkBuffer,
    first: &[u8],
    second: &[u8],
) -> CallTurned
    requires s_value { is_session s.old ≡ true }
    requires kept_2 { Kept undo.old }
    requires second_len_bound { length first.now + length second.now < 60000 }
    requires l_value { l ≡ lens_of (args_of j first.now second.now) }
    requires len_in_bounds { len ≤ length log.old }
    ensures on { (e : World) (x : End) → to.Plans (args_of j first.now second.now) e x rec.now f pos len log.old s.old buf.old → to.Turns (args_of j first.now second.now) e x rec.now result log.new s.new buf.new }
    ensures held { is_session s.new ≡ true }
    ensures kept { turning.KeptAll undo.old undo.new s.old s.new buf.old buf.new }
    ensures grew { result.on ≡ true → (len < result.end.len) × (result.end.len ≤ length log.old) }
{
    let n = act(j, l, f, s, undo, buf, first, second);
    stand(j, l, n, pos, len, s, undo, rec, log, buf)
}

// From a call's first plan to its end.
fn call_run(
    j: Job,
    l: Lens,
    f: Plan,
    s: &mut SessionBytes,
    undo: &mut UndoBytes,
    rec: &[u32],
    log: &mut [u32],
    buf: &mut WorkBuffer,
    first: &[u8],
    second: &[u8],
) -> RunEnd
    requires s_value { is_session s.old ≡ true }
    requires kept_2 { Kept undo.old }
    requires second_len_bound { length first.now + length second.now < 60000 }
    requires l_value { l ≡ lens_of (args_of j first.now second.now) }
    ensures on { (e : World) (x : End) → to.Plans (args_of j first.now second.now) e x rec.now f 0 0 log.old s.old buf.old → turning.Ends e x result log.new s.new buf.new }
    ensures held { is_session s.new ≡ true }
    ensures kept { turning.KeptAll undo.old undo.new s.old s.new buf.old buf.new }
{
    let mut t = onward(f, 0, 0);
    while t.on {
        let plan = t.plan;
        let end = t.end;
        t = call_turn(
            j, l, plan, t.pos, end.len, s, undo, rec, log, buf, first, second,
        );
    }
    let end = t.end;
    end
}

// A call that begins with stage g, from its beginning to its end.
pub fn exchange_run(
    j: Job,
    g: Stage,
    s: &mut SessionBytes,
    undo: &mut UndoBytes,
    rec: &[u32],
    log: &mut [u32],
    buf: &mut WorkBuffer,
    first: &[u8],
    second: &[u8],
) -> RunEnd
    requires s_value { is_session s.old ≡ true }
    requires kept_2 { Kept undo.old }
    requires second_len_bound { length first.now + length second.now < 60000 }
    ensures on { (e : World) → turning.Ends e (go e (drop 0 rec.now) log.old 0 (call_shown (args_of j first.now second.now) (exchanges_step j (lens_of (args_of j first.now second.now)) g (session_in s.old).st) (event_of [] 0) (turning.world_in s.old buf.old))) result log.new s.new buf.new }
    ensures held { is_session s.new ≡ true }
    ensures kept { turning.KeptAll undo.old undo.new s.old s.new buf.old buf.new }
{
    let l = lens(first, second);
    call_run(j, l, begins(g), s, undo, rec, log, buf, first, second)
}
