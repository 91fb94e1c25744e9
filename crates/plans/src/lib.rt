// What a call does next.
#![tactic(auto)]

ghost use Rattle.std.specs.Prelude.{◌≡◌, Bool, false, ℕ, length, Option, Ok};
ghost use Rattle.wlan.specs.declared.DriverError as error;
ghost use Rattle.definition.specs.Bus.{Bytes};
ghost use Rattle.send.specs.Meaning.{laid_header};
ghost use Rattle.wlan.specs.declared.State.{State};
ghost use Rattle.control.specs.declared.Before.{Before};
ghost use Rattle.control.specs.declared.Job as job;
ghost use Rattle.control.specs.declared.Lens.{Lens};
ghost use Rattle.control.specs.Steps.{refuses as stepRefuses};
ghost use Rattle.control.specs.Exchange as to;
ghost use Rattle.control.specs.Meaning.{laid_before};
ghost use Rattle.undo.specs.Undo.{Kept};
ghost use Rattle.laying.specs.Laying.{LaidKept};
ghost use Rattle.reply_points.specs.ReplyPoints as reply;
ghost use Rattle.plans.specs.Plans as at;
ghost use Rattle.send.specs.declared.Header.{Header};

use control::{Job, Stage};
use laying::copy_reply;
use reply_points::{IoctlNow, IoctlNowKind};
use requests::security::{pmk, sae};
use send::elapsed_us;
use steps::stages::{is_last, is_tried};
use steps::steps::is_dev_error;
use wlan::{DriverError, UndoBytes, WifiAuth, WorkBuffer};

// The waits of a call.
#[derive(Clone, Copy)]
pub enum PauseKind {
    AfterCountry,
    Settle,
    AfterEventMessages,
    AfterUp,
    BeforeKey,
    BeforeSae,
}

// How a stage begins.
#[derive(Clone, Copy)]
pub enum BeginKind {
    Whole,
    // the payload lies there already
    Numbered,
    // join's last request
    Joined,
}

#[derive(Clone, Copy)]
pub enum PlanKind {
    // a stage, a wait, the clock, the tick
    Begin,
    Pause,
    Clock,
    Tick,
    // join: the key is laid before a wait, an SSID that is too long
    LayKey,
    LongSsid,
    // the end: of scan, of leave, with no value, with the job's ending
    Scan,
    Disconnect,
    Done,
    Give,
    // a refusal, and one that leaves Down
    Refuse,
    RefuseDown,
}

// ns: how long init still waits for the device to settle; t: leave's tick.
#[derive(Clone, Copy)]
pub struct Plan {
    pub kind: PlanKind,
    pub begin: BeginKind,
    pub stage: Stage,
    pub pause: PauseKind,
    pub ns: u32,
    pub t: u64,
    pub error: DriverError,
}

fn only(kind: PlanKind) -> Plan
    ensures { result.kind ≡ kind }
{
    Plan {
        kind: kind,
        begin: BeginKind::Whole,
        stage: Stage::Single,
        pause: PauseKind::AfterUp,
        ns: 0,
        t: 0,
        error: DriverError::Io,
    }
}

fn begin_at(begin: BeginKind, g: Stage) -> Plan
    ensures { (j : job.Job) (l : Lens) (s : State) (h : Bool) (before : Before) → at.begin_by begin j l g s h before ≡ at.planned result j l s h before }
{
    Plan {
        kind: PlanKind::Begin,
        begin: begin,
        stage: g,
        pause: PauseKind::AfterUp,
        ns: 0,
        t: 0,
        error: DriverError::Io,
    }
}

pub fn begins(g: Stage) -> Plan
    ensures { (j : job.Job) (l : Lens) (s : State) (h : Bool) (before : Before) → to.begins j l g s h before ≡ at.planned result j l s h before }
{
    begin_at(BeginKind::Whole, g)
}

fn waits(pause: PauseKind, ns: u32) -> Plan
    ensures { (j : job.Job) (l : Lens) (s : State) (h : Bool) (before : Before) → at.pausing s h before pause ns ≡ at.planned result j l s h before }
{
    Plan {
        kind: PlanKind::Pause,
        begin: BeginKind::Whole,
        stage: Stage::Single,
        pause: pause,
        ns: ns,
        t: 0,
        error: DriverError::Io,
    }
}

fn pauses(pause: PauseKind) -> Plan
    ensures { (j : job.Job) (l : Lens) (s : State) (h : Bool) (before : Before) → at.pausing s h before pause 0 ≡ at.planned result j l s h before }
{
    waits(pause, 0)
}

fn refuses(kind: PlanKind, e: DriverError) -> Plan
    ensures { (result.kind ≡ kind) × (result.error ≡ e) }
{
    Plan {
        kind: kind,
        begin: BeginKind::Whole,
        stage: Stage::Single,
        pause: PauseKind::AfterUp,
        ns: 0,
        t: 0,
        error: e,
    }
}

fn sae_plan(a: WifiAuth) -> Plan
    ensures { (j : job.Job) (l : Lens) (s : State) (h : Bool) (before : Before) → j.auth ≡ a → to.sae_step j l s h before ≡ at.planned result j l s h before }
{
    if sae(a) {
        return pauses(PauseKind::BeforeSae);
    }
    begins(Stage::Infra)
}

fn key_plan(a: WifiAuth) -> Plan
    ensures { (j : job.Job) (l : Lens) (s : State) (h : Bool) (before : Before) → j.auth ≡ a → to.key_step j l s h before ≡ at.planned result j l s h before }
{
    if pmk(a) {
        return only(PlanKind::LayKey);
    }
    sae_plan(a)
}

fn length_plan(long: bool) -> Plan
    ensures { (j : job.Job) (l : Lens) (s : State) (h : Bool) (before : Before) → j.long_passphrase ≡ long → to.length_step j l s h before ≡ at.planned result j l s h before }
{
    if long {
        return refuses(PlanKind::Refuse, DriverError::InvalidArg);
    }
    begins(Stage::Wsec)
}

fn ssid_plan(long: bool) -> Plan
    ensures { (j : job.Job) (l : Lens) (s : State) (h : Bool) (before : Before) → j.long_ssid ≡ long → to.ssid_step j l s h before ≡ at.planned result j l s h before }
{
    if long {
        return only(PlanKind::LongSsid);
    }
    begin_at(BeginKind::Joined, Stage::Ssid)
}

// The stage that follows at once, where one does.
fn next_stage(g: Stage) -> Stage
    ensures { result ≡ at.next_stage g }
{
    match g {
        Stage::AntDiv => Stage::Txglom,
        Stage::Txglom => Stage::Apsta,
        Stage::Apsta => Stage::BaWsize,
        Stage::BaWsize => Stage::Mpdu,
        Stage::Mpdu => Stage::RxFactor,
        Stage::Wsec => Stage::SupWpa,
        Stage::SupWpa => Stage::Eapver,
        Stage::Eapver => Stage::SupWpaTmo,
        Stage::Sae => Stage::Infra,
        Stage::Infra => Stage::Auth,
        Stage::Auth => Stage::Mfp,
        Stage::Mfp => Stage::WpaAuth,
        _ => Stage::Single,
    }
}

// After a stage.
pub fn plan_of(j: Job, g: Stage) -> Plan
    ensures { (l : Lens) (s : State) (h : Bool) (before : Before) → to.after_step j l g s h before ≡ at.planned result j l s h before }
{
    let a = j.auth;
    match g {
        Stage::Country => pauses(PauseKind::AfterCountry),
        Stage::RxFactor => only(PlanKind::Clock),
        Stage::EventMessages => pauses(PauseKind::AfterEventMessages),
        Stage::InitUp => pauses(PauseKind::AfterUp),
        Stage::JoinBaWsize => length_plan(j.long_passphrase),
        Stage::SupWpaTmo => key_plan(a),
        Stage::Key => sae_plan(a),
        Stage::WpaAuth => ssid_plan(j.long_ssid),
        Stage::Ssid => only(PlanKind::Done),
        Stage::Escan => only(PlanKind::Scan),
        Stage::Disassoc => only(PlanKind::Tick),
        Stage::Single => only(PlanKind::Give),
        _ => begins(next_stage(g)),
    }
}

// After a wait.
pub fn resume_of(p: PauseKind) -> Plan
    ensures { (ns : ℕ) (j : job.Job) (l : Lens) (s : State) → to.pause_answer j l s (at.pause_by p ns) ≡ at.planned result j l s false Before.None }
{
    match p {
        PauseKind::AfterCountry => begins(Stage::AntDiv),
        PauseKind::Settle => begins(Stage::EventMessages),
        PauseKind::AfterEventMessages => begins(Stage::InitUp),
        PauseKind::AfterUp => only(PlanKind::Done),
        PauseKind::BeforeKey => begin_at(BeginKind::Numbered, Stage::Key),
        PauseKind::BeforeSae => begins(Stage::Sae),
    }
}

// After init's clock: 150 ms after start-up, cut to 32 bits.
pub fn clock_plan(t: u64) -> Plan
    ensures { (j : job.Job) (l : Lens) (s : State) → to.settle_step j l s t ≡ at.planned result j l s false Before.None }
{
    let e = (elapsed_us(0, t) % 4294967296) as u32;
    if e < 150_000 {
        return waits(PauseKind::Settle, (150_000 - e) * 1000);
    }
    begins(Stage::EventMessages)
}

// After leave's tick.
pub fn tick_plan(t: u64) -> Plan
    ensures { (j : job.Job) (l : Lens) (s : State) → to.tick_answer s (Ok t) ≡ at.planned result j l s false Before.None }
{
    Plan {
        kind: PlanKind::Disconnect,
        begin: BeginKind::Whole,
        stage: Stage::Single,
        pause: PauseKind::AfterUp,
        ns: 0,
        t: t,
        error: DriverError::Io,
    }
}

// The clock or the tick met a fault.
pub fn fault_plan(place: u8) -> Plan
    ensures { (j : job.Job) (l : Lens) (s : State) → stepRefuses s false Before.None (error.DriverError.Fault place) ≡ at.planned result j l s false Before.None }
{
    refuses(PlanKind::Refuse, DriverError::Fault(place))
}

// A stage that was refused, and not only tried.
fn stop_plan(g: Stage, e: DriverError) -> Plan
    ensures { (j : job.Job) (l : Lens) (s : State) (h : Bool) (before : Before) → at.stop_step g e s h before ≡ at.planned result j l s h before }
{
    if is_dev_error(e) {
        if is_last(g) {
            return refuses(PlanKind::RefuseDown, e);
        }
        return refuses(PlanKind::Refuse, e);
    }
    refuses(PlanKind::Refuse, e)
}

fn is_ignored(g: Stage, e: DriverError) -> bool
    ensures { result ≡ at.is_ignored g e }
{
    if is_dev_error(e) { is_tried(g) } else { false }
}

// A reply is copied to where the payload was. Whether the call goes on as after one.
fn goes_on(undo: &mut UndoBytes, buf: &mut WorkBuffer, n: IoctlNow, g: Stage) -> bool
    requires kept_2 { Kept undo.old }
    ensures on { result ≡ at.goes_on n.kind g n.error }
    ensures laid { (x : Option Header) (c₀ : Bytes) → buf.old ≡ laid_header (reply.header_in (reply.next_of n x)) c₀ → buf.new ≡ laid_before (at.before_in (reply.next_of n x)) c₀ }
    ensures kept { LaidKept undo.old undo.new buf.old buf.new }
{
    let k = n.kind;
    let e = n.error;
    match k {
        IoctlNowKind::Ask => false,
        IoctlNowKind::Done => {
            copy_reply(undo, buf, n.offset, n.count);
            true
        }
        IoctlNowKind::Refused => is_ignored(g, e),
    }
}

// After an exchange that is over. Its header is laid already.
pub fn exchange_plan(
    j: Job,
    g: Stage,
    undo: &mut UndoBytes,
    buf: &mut WorkBuffer,
    n: IoctlNow,
) -> Plan
    requires kept_2 { Kept undo.old }
    ensures on { (l : Lens) (s : State) (h : Bool) (x : Option Header) → at.is_ask n.kind ≡ false → to.exchange_next j l g s h (reply.next_of n x) ≡ at.planned result j l s h (at.before_in (reply.next_of n x)) }
    ensures laid { (x : Option Header) (c₀ : Bytes) → buf.old ≡ laid_header (reply.header_in (reply.next_of n x)) c₀ → buf.new ≡ laid_before (at.before_in (reply.next_of n x)) c₀ }
    ensures kept { LaidKept undo.old undo.new buf.old buf.new }
{
    let e = n.error;
    let on = goes_on(undo, buf, n, g);
    if on {
        return plan_of(j, g);
    }
    stop_plan(g, e)
}
