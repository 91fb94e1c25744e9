// Whether bytes are a state's: each part is tested where it lies.
ghost use Rattle.std.specs.Prelude.{◌≡◌, ◌+◌, ◌≤◌, length, take, drop};
ghost use Rattle.definition.specs.Scan.{same_bytes};
ghost use Rattle.connect_failure.specs.Parts.{failure_parts, failure_of};
ghost use Rattle.state_bytes.specs.Parts.{reply_parts, reply_of, frame_parts, frame_of, tick_parts, tick_of};
ghost use Rattle.state_bytes.specs.StateBytes as to;

// The N bytes from index at on.
fn bytes_at<const N: usize>(p: &[u8], at: usize) -> [u8; N]
    requires { at + N ≤ length p.now }
    ensures { result ≡ take N (drop at p.now) }
{
    let mut bytes = [0u8; N];
    bytes.copy_from_slice(&p[at..at + N]);
    bytes
}

// A mark is 0 or 1.
pub fn front_form(p: &[u8]) -> bool
    requires { length p.now ≡ 7 }
    ensures { result ≡ same_bytes (to.front_bytes (to.sdpcm_in p.now) (to.marks_in p.now)) p.now }
{
    p[4] <= 1 && p[5] <= 1 && p[6] <= 1
}

fn reply_form(p: &[u8]) -> bool
    requires { length p.now ≡ 14 }
    ensures { result ≡ same_bytes (to.reply_bytes (reply_parts (reply_of (to.reply_in p.now)))) (take 9 p.now) }
{
    if p[0] == 0 {
        u64::from_le_bytes(bytes_at(p, 1)) == 0
    } else {
        p[0] == 1
    }
}

fn frame_form(p: &[u8]) -> bool
    requires { length p.now ≡ 14 }
    ensures { result ≡ same_bytes (to.frame_bytes (frame_parts (frame_of (to.frame_in p.now)))) (drop 9 p.now) }
{
    if p[9] == 0 {
        u32::from_le_bytes(bytes_at(p, 10)) == 0
    } else {
        p[9] == 1
    }
}

pub fn pending_form(p: &[u8]) -> bool
    requires { length p.now ≡ 14 }
    ensures { result ≡ same_bytes (to.pending_bytes (to.pending_in p.now)) p.now }
{
    reply_form(p) && frame_form(p)
}

// None and a timeout have no numbers, and a deauthentication has no status.
fn failure_form(p: &[u8]) -> bool
    requires { length p.now ≡ 20 }
    ensures { result ≡ same_bytes (to.failure_bytes (failure_parts (failure_of (to.failure_in p.now)))) (take 9 (drop 2 p.now)) }
{
    match p[2] {
        0 | 7 => u64::from_le_bytes(bytes_at(p, 3)) == 0,
        6 => u32::from_le_bytes(bytes_at(p, 3)) == 0,
        tag => tag < 6,
    }
}

fn tick_form(p: &[u8]) -> bool
    requires { length p.now ≡ 20 }
    ensures { result ≡ same_bytes (to.tick_bytes (tick_parts (tick_of (to.tick_in p.now)))) (drop 11 p.now) }
{
    if p[11] == 0 {
        u64::from_le_bytes(bytes_at(p, 12)) == 0
    } else {
        p[11] == 1
    }
}

pub fn link_form(p: &[u8]) -> bool
    requires { length p.now ≡ 20 }
    ensures { result ≡ same_bytes (to.link_bytes (to.link_in p.now)) p.now }
{
    p[0] <= 3 && p[1] <= 5 && failure_form(p) && tick_form(p)
}
