// What a call may change, kept in 3,444 lent bytes before it changes, so that a refused call leaves everything as it was.
#![tactic(auto)]

ghost use Rattle.std.specs.Prelude.{◌≡◌, true, false, List, ℕ, ◌+◌, ◌*◌, ◌≤◌, ◌<◌, min, length, take, drop};
ghost use Rattle.slices.specs.Over.{over};
ghost use Rattle.slices.specs.Le.{le16};
ghost use Rattle.undo.specs.Undo.{Kept, kept_of, records_kept, back_session, back_buf};

use wlan::{SessionBytes, UndoBytes, WorkBuffer};

// How many bytes a session has before its records, and how many its records.
const FRONT: usize = 49;

const RECORDS: usize = 1344;

// Keeps the session's first 49 bytes, and nothing else yet.
pub fn keep_front(undo: &mut UndoBytes, session: &SessionBytes)
    ensures { Kept undo.new × (kept_of undo.new ≡ 0) × (records_kept undo.new ≡ false) × (back_session undo.new session.now ≡ session.now) × ((b : List ℕ) → back_buf undo.new b ≡ b) }
{
    undo[0] = 0;
    undo[1] = 0;
    undo[2] = 0;
    copy_front(undo, 3, session, 0);
}

// Keeps the work buffer's bytes before index to, as far as they are not kept yet, and up to 7 more.
pub fn keep(undo: &mut UndoBytes, buf: &WorkBuffer, to: usize)
    requires kept { Kept undo.old }
    ensures { Kept undo.new × (min to 2048 ≤ kept_of undo.new) × ((s : List ℕ) → back_session undo.new s ≡ back_session undo.old s) × (back_buf undo.new buf.now ≡ back_buf undo.old buf.now) × (kept_of undo.old ≤ kept_of undo.new) × (records_kept undo.new ≡ records_kept undo.old) }
{
    let n = kept(undo);
    let end = to.min(2048);
    if n < end {
        let k = (end - n + 7) / 8;
        copy(undo, 1396 + n, buf, n, 8 * k);
        put_kept(undo, n + 8 * k);
    }
}

// Keeps the session's records, unless they are kept already.
pub fn keep_records(undo: &mut UndoBytes, session: &SessionBytes)
    requires kept { Kept undo.old }
    ensures { Kept undo.new × (records_kept undo.new ≡ true) × (kept_of undo.new ≡ kept_of undo.old) × ((b : List ℕ) → back_buf undo.new b ≡ back_buf undo.old b) × (back_session undo.new session.now ≡ back_session undo.old session.now) }
{
    if undo[2] == 1 {
        return;
    }
    copy(undo, 52, session, FRONT, RECORDS);
    undo[2] = 1;
}

// Puts back all that is kept.
pub fn put_back(undo: &UndoBytes, session: &mut SessionBytes, buf: &mut WorkBuffer)
    requires kept { Kept undo.now }
    ensures { (session.new ≡ back_session undo.now session.old) × (buf.new ≡ back_buf undo.now buf.old) }
{
    put_session(undo, session);
    copy(buf, 0, undo, 1396, kept(undo));
}

// The session's part of that.
fn put_session(undo: &UndoBytes, session: &mut SessionBytes)
    ensures { session.new ≡ back_session undo.now session.old }
{
    copy_front(session, 0, undo, 3);
    if undo[2] == 1 {
        copy(session, FRONT, undo, 52, RECORDS);
    }
}

// How many of the work buffer's bytes are kept.
fn kept(undo: &UndoBytes) -> usize
    ensures { result ≡ kept_of undo.now }
{
    usize::from(u16::from_le_bytes([undo[0], undo[1]]))
}

// Says that n are.
fn put_kept(undo: &mut UndoBytes, n: usize)
    ensures { undo.new ≡ over undo.old 0 (le16 n) }
{
    let [low, high, ..] = n.to_le_bytes();
    undo[0] = low;
    undo[1] = high;
}

// Copies the front: of a constant length it is a move.
fn copy_front(dst: &mut [u8], to: usize, src: &[u8], from: usize)
    requires to_in_bounds { to + 49 ≤ length dst.old }
    requires from_in_bounds { from + 49 ≤ length src.now }
    ensures { dst.new ≡ over dst.old to (take 49 (drop from src.now)) }
{
    dst[to..to + FRONT].copy_from_slice(&src[from..from + FRONT]);
}

// Copies n bytes, by a loop: of a length that is no constant `copy_from_slice` is a call of memmove, which a board would have to bring.
fn copy(dst: &mut [u8], to: usize, src: &[u8], from: usize, n: usize)
    requires to_in_bounds { to + n ≤ length dst.old }
    requires from_in_bounds { from + n ≤ length src.now }
    ensures { dst.new ≡ over dst.old to (take n (drop from src.now)) }
{
    for i in 0..n {
        dst[to + i] = src[from + i];
    }
}
