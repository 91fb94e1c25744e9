// What an answer leaves in the work buffer.
ghost use Rattle.std.specs.Prelude.{◌≡◌, false, [], drop, Ok};
ghost use Rattle.definition.specs.Bus as def;
ghost use Rattle.bus.specs.Op.{op_of};
ghost use Rattle.answers.specs.Taken.{taken_of};
ghost use Rattle.device.specs.Meaning.{landing, InRange};
ghost use Rattle.effects.specs.Answer.{answer_in, is_wait};

use bus::read::{faulted_read, read_bytes};
use wlan::{BusAnswer, BusOp};

fn land_packet(buf: &mut [u8], n: u16, x: BusAnswer, rec: &[u32], pos: usize)
    requires { Ok x ≡ taken_of (def.Op.read_packet n) (drop pos rec.now) }
    ensures { buf.new ≡ landing (BusOp.ReadPacket n) (answer_in x (drop pos rec.now)) buf.old }
{
    match x {
        Err(_) => faulted_read(buf, n),
        Ok(_) => {
            let words = 1 + (n as usize + 3) / 4;
            read_bytes(buf, &rec[pos + 1..pos + 1 + words], n as usize);
        }
    }
}

// x is what the recording's words from pos on answer.
pub fn land(buf: &mut [u8], op: BusOp, x: BusAnswer, rec: &[u32], pos: usize)
    requires { Ok x ≡ taken_of (op_of op []) (drop pos rec.now) }
    ensures { buf.new ≡ landing op (answer_in x (drop pos rec.now)) buf.old }
{
    match op {
        BusOp::ReadInterrupt => {}
        BusOp::ReadStatus => {}
        BusOp::ReadPacket(n) => land_packet(buf, n, x, rec, pos),
        BusOp::ReadClock => {}
        BusOp::ReadTick => {}
        BusOp::WritePacket(_) => {}
        BusOp::WriteInterrupt(_) => {}
        BusOp::FrameControl => {}
        BusOp::Wait(_) => {}
    }
}

// A value is as wide as what was read: a recorded status is a word. By the recording's rule a fault answers a wait too.
pub fn in_range(op: BusOp, x: BusAnswer, rec: &[u32], pos: usize)
    requires op_value { is_wait op ≡ false }
    requires x_value { Ok x ≡ taken_of (op_of op []) (drop pos rec.now) }
    ensures { InRange op (answer_in x (drop pos rec.now)) }
{
    let _word = words::word_at(rec, pos + 1);
}
