// What the player prints of a call, as bytes.
ghost use Rattle.std.specs.Prelude.{◌≡◌, true, List, [], ◌∷◌, ◌++◌, ℕ, ◌+◌, ◌*◌, ◌≤◌, length, take};
ghost use Rattle.slices.specs.Over.{over};
ghost use Rattle.definition.specs.Run.{End};
ghost use Rattle.definition.specs.Player.{line_of};
ghost use Rattle.definition.specs.Player.{numbers as Player·numbers};
ghost use Rattle.session_bytes.specs.Session.{is_session};
ghost use Rattle.lines.specs.Text.{decimal, hex, row_of, words_of, text_of, Printed};

use places_read::{sdpcm_at, wifi_at};
use run_end::{RunEnd, refusal_number};
use state_bytes::numbers::state_number;
use wlan::SessionBytes;

// Call, refusal, value, state, sequence, credit, flow, id, log words.
fn numbers(call: u32, r: RunEnd, s: &SessionBytes) -> [u64; 9]
    requires { is_session s.now ≡ true }
    ensures { (e : End) (log : List ℕ) → Printed e log s.now r → result ≡ call ∷ Player·numbers e }
{
    let kind = r.kind;
    let sdpcm = sdpcm_at(s);
    let state = wifi_at(s);
    [
        call as u64,
        refusal_number(kind) as u64,
        r.value,
        state_number(state) as u64,
        sdpcm.packet_tx_seq as u64,
        sdpcm.last_bus_data_credit as u64,
        sdpcm.wlan_flow_control as u64,
        sdpcm.requested_ioctl_id as u64,
        r.len as u64,
    ]
}

// Puts n in base ten, and end after it, into text from index at on; gives the index past them.
fn put_number(text: &mut [u8], at: usize, n: u64, end: u8) -> usize
    requires { at ≤ 168 }
    ensures text_after { text.new ≡ over text.old at (decimal n ++ (end ∷ [])) }
    ensures value { (result ≡ at + length (decimal n ++ (end ∷ []))) × (result ≤ at + 21) }
{
    let mut digits = [0u8; 20];
    let k = io::decimal(n, &mut digits);
    slices::copy_over(text, at, &digits[..k]);
    put_words::put(text, at + k, end);
    at + k + 1
}

// The numbers, one space between, on a line.
fn put_numbers(text: &mut [u8], numbers: &[u64; 9]) -> usize
    ensures text_after { text.new ≡ over text.old 0 (row_of numbers.now) }
    ensures value { (result ≡ length (row_of numbers.now)) × (result ≤ 189) }
{
    let mut at = 0;
    for &n in &numbers[..8] {
        at = put_number(text, at, n, b' ');
    }
    put_number(text, at, numbers[8], b'\n')
}

// One word of the log on a line.
fn put_word(text: &mut [u8], at: usize, w: u32)
    requires { at ≤ 73908 }
    ensures { text.new ≡ over text.old at (hex w ++ (10 ∷ [])) }
{
    let mut digits = [0u8; 16];
    let k = io::hex(w as u64, 8, &mut digits);
    slices::copy_over(text, at, &digits[..k]);
    put_words::put(text, at + k, b'\n');
}

fn put_words(text: &mut [u8], at: usize, log: &[u32]) -> usize
    requires at_bound { at ≤ 189 }
    requires log_len_bound { length log.now ≤ 8192 }
    ensures text_after { text.new ≡ over text.old at (words_of log.now) }
    ensures value { result ≡ at + 9 * length log.now }
{
    let mut end = at;
    for &w in log {
        put_word(text, end, w);
        end += 9;
    }
    end
}

// The lines of a call that ended with r and left the session s; gives their length.
pub fn put_lines(text: &mut [u8], call: u32, r: RunEnd, s: &SessionBytes, log: &[u32]) -> usize
    requires s_value { is_session s.now ≡ true }
    requires in_bounds { 73917 ≤ length text.old }
    requires log_len_bound { length log.now ≤ 8192 }
    ensures text_after { (e : End) → Printed e log.now s.now r → take result text.new ≡ text_of (line_of call e) }
    ensures upper_bound { result ≤ length text.new }
{
    let ns = numbers(call, r, s);
    let at = put_numbers(text, &ns);
    let n = r.len.min(log.len());
    put_words(text, at, &log[..n])
}
