// A stage's exchange begins.
ghost use Rattle.std.specs.Prelude.{◌≡◌, Bool, true, false, length, Option};
ghost use Rattle.definition.specs.Bus.{Bytes};
ghost use Rattle.ioctl.specs.Ioctl.{start_step};
ghost use Rattle.control.specs.declared.Before.{Before};
ghost use Rattle.control.specs.declared.Job as job;
ghost use Rattle.control.specs.declared.Lay.{Lay};
ghost use Rattle.control.specs.declared.RequestPut.{RequestPut};
ghost use Rattle.control.specs.Meaning.{Args, laid_before, laid_request};
ghost use Rattle.control.specs.Stages.{request_at, request_len};
ghost use Rattle.control.specs.Steps.{lays};
ghost use Rattle.control.specs.Exchange as to;
ghost use Rattle.effects.specs.Args.{args_of};
ghost use Rattle.session_bytes.specs.Session.{is_session, session_in, with_state};
ghost use Rattle.places.specs.Places.{Holds};
ghost use Rattle.laying.specs.Laying.{LaidKept};
ghost use Rattle.undo.specs.Undo.{Kept};
ghost use Rattle.reply_points.specs.ReplyPoints as reply;
ghost use Rattle.plans.specs.Plans as plans;
ghost use Rattle.exchanging.specs.Exchanging as at;
ghost use Rattle.send.specs.declared.Header.{Header};

use crate::now::{CallNow, exchange_at, refuse};
use control::{Job, Lens, Stage};
use laying::{lay_numbered, lay_whole};
use places::write::{put_auth, put_wifi};
use places_read::sdpcm_at;
use plans::BeginKind;
use reply_points::{IoctlNow, IoctlNowKind};
use replying::ioctl_start;
use requests::Request;
use sdpcm::header::next_id;
use steps::stages::{is_last, request_at, request_len};
use steps::steps::is_dev_error;
use wlan::{DriverError, SessionBytes, UndoBytes, WifiAuth, WifiState, WorkBuffer};

// The length of a payload that no byte argument changes.
fn fixed_len(g: Stage) -> u16
    ensures { result ≡ at.fixed_len g }
{
    match g {
        Stage::Country | Stage::RxFactor => 20,
        Stage::AntDiv
        | Stage::Wsec
        | Stage::Infra
        | Stage::Auth
        | Stage::WpaAuth
        | Stage::Disassoc => 4,
        Stage::Txglom | Stage::Mpdu => 15,
        Stage::Apsta => 10,
        Stage::BaWsize | Stage::JoinBaWsize => 19,
        Stage::EventMessages => 41,
        Stage::SupWpa => 23,
        Stage::Eapver => 31,
        Stage::SupWpaTmo => 27,
        Stage::Mfp => 8,
        Stage::Escan => 82,
        _ => 0,
    }
}

// How long a stage's payload is.
pub fn stage_len(j: Job, g: Stage, l: Lens) -> u16
    ensures { result ≡ request_len (request_at j g) l }
{
    let single = j.request;
    match g {
        Stage::Key => request_len(Request::Key, l),
        Stage::Sae => request_len(Request::SaePassword, l),
        Stage::Ssid => request_len(Request::Ssid, l),
        Stage::Single => request_len(single, l),
        _ => fixed_len(g),
    }
}

// A beginning was refused; join's last request leaves Down.
fn unbegun(s: &mut SessionBytes, g: Stage, e: DriverError) -> CallNow
    requires { is_session s.old ≡ true }
    ensures { (h : Bool) (lay : Lay) → at.Sets s.old s.new result h lay (to.unbegun (session_in s.old).st g h lay e) }
{
    if is_dev_error(e) {
        if is_last(g) {
            put_wifi(s, WifiState::Down);
            return refuse(e);
        }
        return refuse(e);
    }
    refuse(e)
}

// After the first step of the exchange.
fn begun(s: &mut SessionBytes, n: IoctlNow, g: Stage) -> CallNow
    requires { is_session s.old ≡ true }
    ensures { (h : Bool) (before : Before) (put : RequestPut) (x : Option Header) → at.Sets s.old s.new result h (lays before put (reply.header_in (reply.next_of n x))) (to.begun_by (reply.next_of n x) (session_in s.old).st g h before put) }
{
    let k = n.kind;
    let p = n.at;
    let e = n.error;
    match k {
        IoctlNowKind::Ask => return exchange_at(g, p),
        IoctlNowKind::Done => return refuse(DriverError::InvalidArg),
        IoctlNowKind::Refused => return unbegun(s, g, e),
    }
}

fn new_id(s: &SessionBytes) -> u8
    requires { is_session s.now ≡ true }
    ensures { result ≡ to.new_id (session_in s.now).st }
{
    let t = next_id(sdpcm_at(s));
    t.requested_ioctl_id
}

// The request lies in buf; len is its payload's length.
fn begin_laid(
    s: &mut SessionBytes,
    undo: &mut UndoBytes,
    buf: &mut WorkBuffer,
    g: Stage,
    len: u16,
) -> CallNow
    requires s_value { is_session s.old ≡ true }
    requires kept { Kept undo.old }
    ensures { (a : Args) (h : Bool) (before : Before) (put : RequestPut) (c₀ : Bytes) → buf.old ≡ laid_request a put (laid_before before c₀) → at.Acts a undo.old undo.new s.old s.new c₀ buf.old buf.new result h (to.begun (start_step (session_in s.old).st len) g h before put) }
{
    let n = ioctl_start(s, undo, buf, len);
    begun(s, n, g)
}

// Lays a stage's request.
fn lay_by(
    begin: BeginKind,
    undo: &mut UndoBytes,
    buf: &mut WorkBuffer,
    r: Request,
    first: &[u8],
    second: &[u8],
    id: u8,
)
    requires kept_2 { Kept undo.old }
    ensures laid { (j : job.Job) → buf.new ≡ laid_request (args_of j first.now second.now) (plans.put_by begin r id) buf.old }
    ensures kept { LaidKept undo.old undo.new buf.old buf.new }
{
    match begin {
        BeginKind::Whole => lay_whole(undo, buf, r, first, second, id),
        BeginKind::Numbered => lay_numbered(undo, buf, r, first, second, id),
        BeginKind::Joined => lay_whole(undo, buf, r, first, second, id),
    }
}

// A stage's request is laid, and its exchange begins. buf has `before` laid already.
fn begin_put(
    j: Job,
    l: Lens,
    begin: BeginKind,
    g: Stage,
    s: &mut SessionBytes,
    undo: &mut UndoBytes,
    buf: &mut WorkBuffer,
    first: &[u8],
    second: &[u8],
) -> CallNow
    requires s_value { is_session s.old ≡ true }
    requires kept { Kept undo.old }
    ensures { (h : Bool) (before : Before) (c₀ : Bytes) → buf.old ≡ laid_before before c₀ → at.Acts (args_of j first.now second.now) undo.old undo.new s.old s.new c₀ buf.old buf.new result h (plans.begun_by begin j l g (session_in s.old).st h before) }
{
    let r = request_at(j, g);
    let id = new_id(s);
    lay_by(begin, undo, buf, r, first, second, id);
    begin_laid(s, undo, buf, g, request_len(r, l))
}

pub fn connecting(s: &mut SessionBytes, a: WifiAuth)
    requires { is_session s.old ≡ true }
    ensures { Holds s.new (with_state s.old (plans.connecting_by a (session_in s.old).st)) }
{
    put_auth(s, a);
    put_wifi(s, WifiState::Connecting);
}

// Join's last request begins with the link's state.
fn connect_by(begin: BeginKind, s: &mut SessionBytes, a: WifiAuth)
    requires { is_session s.old ≡ true }
    ensures { Holds s.new (with_state s.old (plans.state_by begin a (session_in s.old).st)) }
{
    match begin {
        BeginKind::Whole => {}
        BeginKind::Numbered => {}
        BeginKind::Joined => connecting(s, a),
    }
}

pub fn begin(
    j: Job,
    l: Lens,
    begin: BeginKind,
    g: Stage,
    s: &mut SessionBytes,
    undo: &mut UndoBytes,
    buf: &mut WorkBuffer,
    first: &[u8],
    second: &[u8],
) -> CallNow
    requires s_value { is_session s.old ≡ true }
    requires kept { Kept undo.old }
    ensures { (h : Bool) (before : Before) (c₀ : Bytes) → buf.old ≡ laid_before before c₀ → at.Acts (args_of j first.now second.now) undo.old undo.new s.old s.new c₀ buf.old buf.new result h (plans.begin_by begin j l g (session_in s.old).st h before) }
{
    let a = j.auth;
    connect_by(begin, s, a);
    begin_put(j, l, begin, g, s, undo, buf, first, second)
}
