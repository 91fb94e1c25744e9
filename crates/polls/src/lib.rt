// `poll` on a session's bytes: what it does with an answer. buf has what the answer left.
#![tactic(auto)]

ghost use Rattle.std.specs.Prelude.{◌≡◌, true, length, Ok};
ghost use Rattle.wlan.specs.declared.AsyncEvent.{AsyncEvent};
ghost use Rattle.device.specs.declared.Arrival.{Arrival};
ghost use Rattle.device.specs.declared.PollPoint as point;
ghost use Rattle.device.specs.Poll.{poll_op};
ghost use Rattle.device.specs.Meaning.{arrival_at, Tells};
ghost use Rattle.control.specs.Poll as to;
ghost use Rattle.session_bytes.specs.Session.{is_session, session_in};
ghost use Rattle.poll_points.specs.PollPoints.{point_of, next_of};
ghost use Rattle.undo.specs.Undo.{Kept};
ghost use Rattle.poll_now.specs.PollNow.{Quiets};
ghost use Rattle.polls.specs.Polls as at;

use arriving::handle_async_event;
use places::write::put_sdpcm;
use places_read::sdpcm_at;
use poll_now::{NowKind, PollNow, asks, frame, nothing, now_at, polling};
use poll_points::{PollAt, PollKind, Polled, PolledKind};
use receive::{poll_device, store_reply};
use run_end::unfailed;
use sdpcm::status::{has_packet, pending, unreadable};
use wlan::setters::set_mark;
use wlan::{SessionBytes, UndoBytes, WorkBuffer};

// What the device's poll came to.
fn polled(s: &mut SessionBytes, undo: &mut UndoBytes, buf: &WorkBuffer, r: Polled) -> PollNow
    requires s_value { is_session s.old ≡ true }
    requires kept { Kept undo.old }
    ensures { (e : AsyncEvent) → Tells buf.now e (next_of r) → at.Stepped undo.old undo.new s.old s.new result e (to.next_step (session_in s.old).st e (next_of r)) }
{
    let k = r.kind;
    let p = r.at;
    let offset = r.offset;
    let len = r.len;
    match k {
        PolledKind::Ask => asks(p),
        PolledKind::None => nothing(s),
        PolledKind::Control => {
            store_reply(s, offset, len, r.status);
            polling(s)
        }
        PolledKind::AsyncEvent => {
            handle_async_event(s, undo, buf, offset, len);
            polling(s)
        }
        PolledKind::Data => frame(s, offset, len),
        PolledKind::HeaderBeyond => now_at(NowKind::HeaderBeyond, 0, unfailed(0)),
    }
}

// The interrupt was read.
fn first_interrupt(s: &mut SessionBytes, v: u64) -> PollNow
    requires { is_session s.old ≡ true }
    ensures { (a : Arrival) → Quiets s.old s.new result (to.poll_point (session_in s.old).st point.PollPoint.Interrupt (Ok v) a) }
{
    let i = (v % 65536) as u16;
    if i == 0 {
        return nothing(s);
    }
    asks(PollAt {
        kind: PollKind::Acknowledge,
        n: i,
    })
}

// The status was read, for the first time.
fn first_status(s: &mut SessionBytes, v: u64) -> PollNow
    requires { is_session s.old ≡ true }
    ensures { (a : Arrival) → Quiets s.old s.new result (to.poll_point (session_in s.old).st (point.PollPoint.Status 999) (Ok v) a) }
{
    let w = (v % 4294967296) as u32;
    if w == 0xffff_ffff {
        return asks(PollAt {
            kind: PollKind::Waited,
            n: 999,
        });
    }
    if has_packet(w) {
        if unreadable(w) {
            return asks(PollAt {
                kind: PollKind::FrameControl,
                n: 0,
            });
        }
        return asks(PollAt {
            kind: PollKind::Packet,
            n: pending(w),
        });
    }
    put_sdpcm(s, set_mark(sdpcm_at(s), false));
    nothing(s)
}

// A poll's first answer; marked: an earlier packet was good, and the status was asked for.
pub fn first_read(marked: bool, s: &mut SessionBytes, v: u64) -> PollNow
    requires { is_session s.old ≡ true }
    ensures { (a : Arrival) → Quiets s.old s.new result (to.poll_point (session_in s.old).st (at.first_point marked) (Ok v) a) }
{
    if marked {
        return first_status(s, v);
    }
    first_interrupt(s, v)
}

// The value of an answer to the operation at p.
pub fn poll_answer(
    s: &mut SessionBytes,
    undo: &mut UndoBytes,
    buf: &WorkBuffer,
    p: PollAt,
    v: u64,
) -> PollNow
    requires s_value { is_session s.old ≡ true }
    requires kept { Kept undo.old }
    ensures { at.Stepped undo.old undo.new s.old s.new result (arrival_at (poll_op (point_of p)) buf.now (session_in s.old).st.sdpcm).event (to.poll_point (session_in s.old).st (point_of p) (Ok v) (arrival_at (poll_op (point_of p)) buf.now (session_in s.old).st.sdpcm)) }
{
    let r = poll_device(s, p, v, buf);
    polled(s, undo, buf, r)
}
