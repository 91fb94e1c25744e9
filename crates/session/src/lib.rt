// A session of the player: one call read, played and printed. What passes from call to call lies in the session's bytes and the work
// buffer; what is returned is whether the session goes on.
#![tactic(auto)]

pub mod calls;

ghost use Rattle.std.specs.Prelude.{◌≡◌, true, false, [], ◌≤◌, length};
ghost use Rattle.wlan.specs.State as state;
ghost use Rattle.definition.specs.Prog.{world};
ghost use Rattle.definition.specs.Player.{line_of, empty_list};
ghost use Rattle.session_bytes.specs.Session.{is_session};
ghost use Rattle.turning.specs.Turning.{world_in};
ghost use Rattle.lines.specs.Input.{output_length};
ghost use Rattle.lines.specs.Text.{text_of};
ghost use Rattle.session.specs.Play.{call_end, world_after, Fronts};

use lines::input::CallInput;
use wlan::{SessionBytes, UndoBytes, WorkBuffer};

pub fn fresh(s: &mut SessionBytes)
    ensures held { is_session s.new ≡ true }
    ensures finds { world_in s.new [] ≡ world state.fresh [] empty_list }
{
    fresh_session::put_fresh(s);
}

pub fn bad() -> bool
    ensures { result ≡ false }
{
    io::write_all(1, b"bad\n");
    false
}

// Plays one call, prints its lines, and goes on if they were written.
fn play(
    x: CallInput,
    s: &mut SessionBytes,
    undo: &mut UndoBytes,
    buf: &mut WorkBuffer,
    text: &mut [u8],
) -> bool
    requires args_bound { output_length x.call x.args.now ≤ 2048 }
    requires s_value { is_session s.old ≡ true }
    requires in_bounds { 73917 ≤ length text.old }
    ensures held { is_session s.new ≡ true }
    ensures finds { world_in s.new buf.new ≡ world_after (call_end (world_in s.old buf.old) x.entry.rec.now x.entry.call x.entry.args.now) }
    ensures shows { Fronts (text_of (line_of x.entry.call (call_end (world_in s.old buf.old) x.entry.rec.now x.entry.call x.entry.args.now))) text.new }
{
    let mut log = lines::room::log_words();
    let mut out = lines::room::zero_bytes();
    let n = lines::input::output_length(x.call, x.args);
    let r = calls::play_call(x.call, x.args, s, undo, x.rec, &mut log, buf, &mut out[..n]);
    let k = lines::text::put_lines(text, x.call, r, s, &log);
    io::write_all(1, &text[..k])
}

// Reads one call and plays it.
pub fn turn(
    s: &mut SessionBytes,
    undo: &mut UndoBytes,
    buf: &mut WorkBuffer,
    text: &mut [u8],
) -> bool
    requires s_value { is_session s.old ≡ true }
    requires in_bounds { 73917 ≤ length text.old }
    ensures { is_session s.new ≡ true }
{
    let mut args = lines::room::zero_bytes();
    let mut rec = lines::room::recording_words();
    match lines::input::read_call(&mut args, &mut rec) {
        Ok(Some(x)) => play(x, s, undo, buf, text),
        Ok(None) => false,
        Err(_) => bad(),
    }
}
