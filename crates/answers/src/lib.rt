// What a recording answers to an operation.
#![tactic(auto)]

ghost use Rattle.std.specs.Prelude.{◌≡◌, List, [], ℕ, ◌+◌, ◌*◌, ◌<◌, ltb, drop, get_or};
ghost use Rattle.slices.specs.Pick.{pick};
ghost use Rattle.definition.specs.Bus as def;
ghost use Rattle.bus.specs.Op.{op_of};
ghost use Rattle.answers.specs.Taken.{seen, taken_for, taken_of};

use wlan::{BusAnswer, BusFault, BusOp};

#[derive(Clone, Copy)]
pub enum NoAnswer {
    // The next answer is not wholly recorded.
    Unrecorded,
    // It is not one to the operation.
    Wrong,
}

pub type Taken = Result<BusAnswer, NoAnswer>;

// A recorded answer: a fault's place, or a kind and a value. No operation takes kind 0.
#[derive(Clone, Copy)]
pub enum Recorded {
    Fault(u8),
    Value(u32, u64),
}

// How many words the answer that begins with head takes.
pub fn answer_words(head: u32) -> usize
    ensures { result ≡ def.size_of head }
{
    match head >> 28 {
        2 => 2,
        3 => {
            let n = (head % 65536) as usize;
            2 + (n + 3) / 4
        }
        4 => 3,
        5 => 3,
        _ => 1,
    }
}

// Two words, the low one first.
fn clock_in(ws: &[u32]) -> u64
    ensures { result ≡ get_or ws.now 1 0 + 4294967296 * get_or ws.now 2 0 }
{
    u64::from(words::word_at(ws, 1)) + (u64::from(words::word_at(ws, 2)) << 32)
}

// An answer of this kind, where its unused bits are zero.
fn value_read(zero: bool, kind: u32, value: u64) -> Recorded
    requires { kind < 7 }
    ensures { (b : List ℕ) → result ≡ seen (pick zero (def.answer kind value b) (def.answer 0 0 [])) }
{
    if zero {
        Recorded::Value(kind, value)
    } else {
        Recorded::Value(0, 0)
    }
}

fn fault_read(low: u32) -> Recorded
    ensures { result ≡ seen (pick (ltb low 10) (def.answer 7 low []) (def.answer 0 0 [])) }
{
    if low < 10 {
        Recorded::Fault(low as u8)
    } else {
        Recorded::Value(0, 0)
    }
}

// The answer in its words.
fn read_answer(ws: &[u32]) -> Recorded
    ensures { result ≡ seen (def.answer_of ws.now) }
{
    let head = words::word_at(ws, 0);
    let low = head % 0x1000_0000;
    match head >> 28 {
        1 => value_read(low < 65536, 1, u64::from(low)),
        2 => value_read(low == 0, 2, u64::from(words::word_at(ws, 1))),
        3 => value_read(low < 65536, 3, u64::from(low)),
        4 => value_read(low == 0, 4, clock_in(ws)),
        5 => value_read(low == 0, 5, clock_in(ws)),
        6 => value_read(low == 0, 6, 0),
        7 => fault_read(low),
        _ => Recorded::Value(0, 0),
    }
}

// The kind of answer that an operation takes; a wait takes none.
fn wanted(op: BusOp) -> u32
    ensures { result ≡ def.wants (op_of op []) }
{
    match op {
        BusOp::ReadInterrupt => 1,
        BusOp::ReadStatus => 2,
        BusOp::ReadPacket(_) => 3,
        BusOp::ReadClock => 4,
        BusOp::ReadTick => 5,
        BusOp::WritePacket(_) => 6,
        BusOp::WriteInterrupt(_) => 6,
        BusOp::FrameControl => 6,
        BusOp::Wait(_) => 8,
    }
}

// A packet's n is the one asked for.
fn asked(op: BusOp, v: u64) -> bool
    ensures { result ≡ def.asked (op_of op []) v }
{
    match op {
        BusOp::ReadInterrupt => true,
        BusOp::ReadStatus => true,
        BusOp::ReadPacket(n) => v == u64::from(n),
        BusOp::ReadClock => true,
        BusOp::ReadTick => true,
        BusOp::WritePacket(_) => true,
        BusOp::WriteInterrupt(_) => true,
        BusOp::FrameControl => true,
        BusOp::Wait(_) => true,
    }
}

// A fault answers any operation but a clock and a tick.
fn fault_for(op: BusOp, place: u8) -> Taken
    ensures { result ≡ taken_for (op_of op []) (Recorded.Fault place) }
{
    let want = wanted(op);
    if want == 4 {
        return Err(NoAnswer::Wrong);
    }
    if want == 5 {
        return Err(NoAnswer::Wrong);
    }
    Ok(Err(BusFault { place }))
}

fn value_for(op: BusOp, kind: u32, value: u64) -> Taken
    ensures { result ≡ taken_for (op_of op []) (Recorded.Value kind value) }
{
    if kind != wanted(op) {
        return Err(NoAnswer::Wrong);
    }
    if asked(op, value) {
        Ok(Ok(value))
    } else {
        Err(NoAnswer::Wrong)
    }
}

fn taken_by(op: BusOp, a: Recorded) -> Taken
    ensures { result ≡ taken_for (op_of op []) a }
{
    match a {
        Recorded::Fault(place) => fault_for(op, place),
        Recorded::Value(kind, value) => value_for(op, kind, value),
    }
}

// What the recording's words from pos on answer.
pub fn take_answer(rec: &[u32], pos: usize, op: BusOp) -> Taken
    ensures { result ≡ taken_of (op_of op []) (drop pos rec.now) }
{
    let n = answer_words(words::word_at(rec, pos));
    if slices::fitting(rec.len(), pos, n) < n {
        return Err(NoAnswer::Unrecorded);
    }
    taken_by(op, read_answer(&rec[pos..pos + n]))
}
