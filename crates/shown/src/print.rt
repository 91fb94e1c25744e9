// A call's further line.
ghost use Rattle.std.specs.Prelude.{◌≡◌, true};
ghost use Rattle.session_bytes.specs.Session.{is_session};

use crate::report::reported;
use crate::sum::{sum_bytes, sum_list};
use hearing::count_in;
use run_end::RunEnd;
use wlan::SessionBytes;

fn number(n: u64) {
    io::print_decimal(1, n);
    io::write_all(1, b" ");
}

// The state's bytes; the failed join reported; the scan list's count and sum.
pub fn end(r: RunEnd, s: &SessionBytes)
    requires { is_session s.now ≡ true }
{
    for &b in &s[..41] {
        number(u64::from(b));
    }
    for part in reported(r) {
        number(part);
    }
    number(count_in(s) as u64);
    number(sum_list(s));
}

// The sums of the work buffer and of the output.
pub fn bytes(buf: &[u8], out: &[u8]) {
    number(sum_bytes(buf));
    number(sum_bytes(out));
    io::write_all(1, b"\n");
}
