// The player: reads calls from standard input, plays each on the driver and prints its lines.
#![tactic(auto)]

use wlan::{SESSION_LEN, UNDO_LEN};

// A loop has to end, and nothing says that the input does: turns are counted up to a number that no run reaches.
fn main() {
    let mut s = [0u8; SESSION_LEN];
    let mut undo = [0u8; UNDO_LEN];
    let mut buf = lines::room::zero_bytes();
    let mut text = lines::room::line_bytes();
    session::fresh(&mut s);
    for _ in 0..u64::MAX {
        if !session::turn(&mut s, &mut undo, &mut buf, &mut text) {
            break;
        }
    }
}
