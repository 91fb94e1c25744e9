// The observer: plays a session file, which has a log's length before each call, and prints the player's lines of each call and
// then all else that it left.
#![tactic(auto)]

use wlan::{SESSION_LEN, UNDO_LEN};

// Turns are counted up to a number that no run reaches.
fn main() {
    let mut s = [0u8; SESSION_LEN];
    let mut undo = [0u8; UNDO_LEN];
    let mut buf = lines::room::zero_bytes();
    let mut text = lines::room::line_bytes();
    session::fresh(&mut s);
    for _ in 0..u64::MAX {
        if !observed::turn(&mut s, &mut undo, &mut buf, &mut text) {
            break;
        }
    }
}
