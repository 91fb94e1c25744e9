// A send that nothing refuses any more: the credit is there, both answers are recorded, the device is ready and the log has room. So
// nothing is to be put back, and nothing is kept.
#![tactic(auto)]

ghost use Rattle.std.specs.Prelude.{◌≡◌, true, false, List, [], ℕ, ◌+◌, ◌≤◌, ◌<◌, eqb, length, drop, Ok};
ghost use Rattle.std.specs.Int.Bits.{bit_and};
ghost use Rattle.slices.specs.Over.{over};
ghost use Rattle.slices.specs.Le.{words_for};
ghost use Rattle.wlan.specs.declared.Success.{Success};
ghost use Rattle.definition.specs.Event.{event_of};
ghost use Rattle.definition.specs.Packet.{header, data_part};
ghost use Rattle.definition.specs.Prog.{World};
ghost use Rattle.control.specs.Meaning.{call_shown};
ghost use Rattle.send.specs.Send.{spending};
ghost use Rattle.session_bytes.specs.Session.{is_session, session_in, with_state};
ghost use Rattle.places.specs.Places.{Holds};
ghost use Rattle.going.specs.Onward.{go};
ghost use Rattle.run_end.specs.RunEnd as ending;
ghost use Rattle.turning.specs.Turning as turning;
ghost use Rattle.send_call.specs.SendCall as to;
ghost use Rattle.straight_send.specs.Straight as straight;

use bus::log::{op_words, put_op};
use places::write::put_sdpcm;
use places_read::sdpcm_at;
use sdpcm::header::{next_seq, put_data, put_header};
use sdpcm::status::f2_ready;
use send_points::is_free;
use wlan::{BusOp, SessionBytes};

fn says_ready(status: u32) -> bool
    ensures { result ≡ true → (status < 4294967296) × (eqb (bit_and status 0x20) 0 ≡ false) }
{
    f2_ready(status)
}

// The recording begins with a status that says ready, and with the answer to a write.
fn ready_written(rec: &[u32]) -> bool
    ensures { result ≡ true → straight.Answered rec.now }
{
    if rec.len() < 3 {
        return false;
    }
    if rec[0] != 0x2000_0000 {
        return false;
    }
    if rec[2] != 0x6000_0000 {
        return false;
    }
    says_ready(rec[1])
}

pub fn goes_straight(frame: &[u8], s: &SessionBytes, rec: &[u32], log: &[u32]) -> bool
    requires { is_session s.now ≡ true }
    ensures { result ≡ true → straight.Straight (length frame.now) s.now rec.now (length log.now) }
{
    let n = frame.len();
    if 2022 < n {
        return false;
    }
    if log.len() < 2 + (n + 21) / 4 {
        return false;
    }
    if is_free(s) {
        return ready_written(rec);
    }
    false
}

// Spends the sequence number.
fn spend(s: &mut SessionBytes) -> u8
    requires { is_session s.old ≡ true }
    ensures { (result ≡ (session_in s.old).st.sdpcm.packet_tx_seq) × Holds s.new (with_state s.old (spending (session_in s.old).st)) }
{
    let t = sdpcm_at(s);
    put_sdpcm(s, next_seq(t));
    t.packet_tx_seq
}

// Lays the packet, its header first: those bytes are then there when the log takes them.
fn lay_packet(interface: u8, seq: u8, frame: &[u8], buf: &mut [u8])
    requires { length frame.now ≤ 2022 }
    ensures { buf.new ≡ over (over buf.old 12 (data_part interface frame.now)) 0 (header (18 + length frame.now) seq 2) }
{
    put_header(buf, 18 + frame.len() as u16, seq, 2);
    put_data(buf, interface, frame);
}

// Both operations go to the log: the status read, and the write of n bytes.
fn log_both(n: u16, log: &mut [u32], buf: &[u8]) -> usize
    requires { 2 + words_for n ≤ length log.old }
    ensures { (rec : List ℕ) → straight.Answered rec → straight.Both rec log.old log.new n result buf.now }
{
    log[0] = 0x2000_0000;
    let op = BusOp::WritePacket(n);
    put_op(log, 1, op, buf);
    1 + op_words(op, buf)
}

// Gives the log's length.
pub fn send_straight(
    interface: u8,
    frame: &[u8],
    s: &mut SessionBytes,
    log: &mut [u32],
    buf: &mut [u8],
) -> usize
    requires s_value { is_session s.old ≡ true }
    requires frame_len_bound { length frame.now ≤ 2022 }
    requires frame_in_bounds { 2 + words_for (18 + length frame.now) ≤ length log.old }
    ensures on { (rec : List ℕ) → straight.Straight (length frame.now) s.old rec (length log.old) → (e : World) → turning.Ends e (go e (drop 0 rec) log.old 0 (call_shown (to.args_in frame.now) (to.start_in interface frame.now s.old) (event_of [] 0) (turning.world_in s.old buf.old))) (ending.end_by (Ok Success.Done) result) log.new s.new buf.new }
    ensures held { is_session s.new ≡ true }
{
    let seq = spend(s);
    lay_packet(interface, seq, frame, buf);
    log_both((21 + frame.len() as u16) / 4 * 4, log, buf)
}
