// A session of the observer: the log's length before each call; the player's lines of each call and then all else that it left.
#![tactic(auto)]

ghost use Rattle.std.specs.Prelude.{◌≡◌, true, ◌≤◌, length, replicate};
ghost use Rattle.definition.specs.Player.{arguments_of, played_call};
ghost use Rattle.session_bytes.specs.Session.{is_session};
ghost use Rattle.turning.specs.Turning.{world_in};
ghost use Rattle.lines.specs.Input.{output_length};
ghost use Rattle.session.specs.Play.{world_after};

use lines::input::CallInput;
use session::{bad, fresh};
use wlan::{SessionBytes, UndoBytes, WorkBuffer};

// This, and the log's length added to it, stands before each call.
const LOG: u32 = 0xE0000000;

// This begins another session.
const FRESH: u32 = 0xD0000000;

// Plays one call on this log and output, and prints all of it.
fn play(
    x: CallInput,
    s: &mut SessionBytes,
    undo: &mut UndoBytes,
    log: &mut [u32],
    out: &mut [u8],
    buf: &mut WorkBuffer,
    text: &mut [u8],
) -> bool
    requires s_value { is_session s.old ≡ true }
    requires log_len_bound { length log.old ≤ 8192 }
    requires out_value { out.old ≡ replicate (output_length x.call x.args.now) 0 }
    requires in_bounds { 73917 ≤ length text.old }
    ensures held { is_session s.new ≡ true }
    ensures finds { world_in s.new buf.new ≡ world_after (played_call (world_in s.old buf.old) x.entry.rec.now log.old out.old (arguments_of x.entry.call x.entry.args.now)) }
{
    let r = session::calls::play_call(x.call, x.args, s, undo, x.rec, log, buf, out);
    let k = lines::text::put_lines(text, x.call, r, s, log);
    let going = io::write_all(1, &text[..k]);
    shown::print::end(r, s);
    shown::print::bytes(buf, out);
    going
}

// A call with its output.
fn play_on(
    x: CallInput,
    s: &mut SessionBytes,
    undo: &mut UndoBytes,
    log: &mut [u32],
    buf: &mut WorkBuffer,
    text: &mut [u8],
) -> bool
    requires args_bound { output_length x.call x.args.now ≤ 2048 }
    requires s_value { is_session s.old ≡ true }
    requires log_len_bound { length log.old ≤ 8192 }
    requires in_bounds { 73917 ≤ length text.old }
    ensures { is_session s.new ≡ true }
{
    let mut out = lines::room::zero_bytes();
    let n = lines::input::output_length(x.call, x.args);
    play(x, s, undo, log, &mut out[..n], buf, text)
}

// Reads one call and plays it on this log.
fn call(
    s: &mut SessionBytes,
    undo: &mut UndoBytes,
    log: &mut [u32],
    buf: &mut WorkBuffer,
    text: &mut [u8],
) -> bool
    requires s_value { is_session s.old ≡ true }
    requires log_len_bound { length log.old ≤ 8192 }
    requires in_bounds { 73917 ≤ length text.old }
    ensures { is_session s.new ≡ true }
{
    let mut args = lines::room::zero_bytes();
    let mut rec = lines::room::recording_words();
    match lines::input::read_call(&mut args, &mut rec) {
        Ok(Some(x)) => play_on(x, s, undo, log, buf, text),
        _ => bad(),
    }
}

// What stands before a call, and the call; or another session begins.
pub fn turn(
    s: &mut SessionBytes,
    undo: &mut UndoBytes,
    buf: &mut WorkBuffer,
    text: &mut [u8],
) -> bool
    requires s_value { is_session s.old ≡ true }
    requires in_bounds { 73917 ≤ length text.old }
    ensures { is_session s.new ≡ true }
{
    let mut log = lines::room::log_words();
    match lines::input::read_word() {
        Ok(None) => false,
        Ok(Some(FRESH)) => {
            buf.fill(0);
            fresh(s);
            true
        }
        Ok(Some(h)) if LOG <= h && h - LOG <= 8192 => {
            let n = (h - LOG) as usize;
            call(s, undo, &mut log[..n], buf, text)
        }
        _ => bad(),
    }
}
