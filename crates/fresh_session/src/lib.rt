// What the first call finds.
#![tactic(auto)]

ghost use Rattle.std.specs.Prelude.{◌≡◌, true, length};
ghost use Rattle.session_bytes.specs.Session.{session_bytes, session_in, is_session};
ghost use Rattle.fresh_session.specs.Fresh.{fresh_session};

use wlan::SessionBytes;

// A fresh session's bytes: zeros, but for the credit.
pub fn put_fresh(s: &mut SessionBytes)
    ensures put { s.new ≡ session_bytes fresh_session }
    ensures back { (is_session s.new ≡ true) × (session_in s.new ≡ fresh_session) }
{
    slices::fill_zero(s, 0, 1393);
    s[1] = 1;
}
