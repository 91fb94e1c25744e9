// Sums over what is too long to print.
ghost use Rattle.std.specs.Prelude.{◌≡◌, ◌<◌, length};
ghost use Rattle.shown.specs.Sum.{limit, sum_next, sum_from, heard_bytes};

use hearing::count_in;
use wlan::SessionBytes;

fn sum_next(h: u64, b: u8) -> u64
    requires { h < limit }
    ensures value { result ≡ sum_next h b }
    ensures upper_bound { result < limit }
{
    (h * 4099 + u64::from(b) + 1) % 281474976710597
}

pub fn sum_bytes(s: &[u8]) -> u64
    ensures { result ≡ sum_from 0 s.now }
{
    let mut t = 0;
    for &b in s {
        t = sum_next(t, b);
    }
    t
}

// The bytes of the records that a session's scan list has.
pub fn sum_list(s: &SessionBytes) -> u64
    ensures { result ≡ sum_from 0 (heard_bytes s.now) }
{
    let end = 49 + 42 * count_in(s).min(32);
    sum_bytes(&s[49..end])
}
