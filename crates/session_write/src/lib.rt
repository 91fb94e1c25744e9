// A session's bytes from state and scan list.
#![tactic(auto)]

pub mod list;

ghost use Rattle.std.specs.Prelude.{◌≡◌, true, length};
ghost use Rattle.session_bytes.specs.Session as to;

use crate::list::put_list;
use places::write::{put_frame, put_link, put_marks, put_reply, put_sdpcm};
use session_bytes::session::Session;
use slices::copy_over;
use wlan::{SessionBytes, State};

// The state goes into a session's bytes, and their list stays. What is read from the bytes is the state.
pub fn put_state_in(st: State, out: &mut SessionBytes)
    requires { to.is_session out.old ≡ true }
    ensures put { out.new ≡ to.session_bytes (to.with_state out.old st) }
    ensures back { (to.is_session (to.session_bytes (to.with_state out.old st)) ≡ true) × (to.session_in (to.session_bytes (to.with_state out.old st)) ≡ to.with_state out.old st) }
{
    put_sdpcm(out, st.sdpcm);
    put_marks(out, st.scan);
    put_reply(out, st.pending.ioctl_resp);
    put_frame(out, st.pending.rx);
    put_link(out, st.link);
}

// What is read from the bytes is the session. 41 zeros are a state's bytes.
pub fn put_session(s: Session, out: &mut SessionBytes)
    ensures put { out.new ≡ to.session_bytes s }
    ensures back { (to.is_session (to.session_bytes s) ≡ true) × (to.session_in (to.session_bytes s) ≡ s) }
{
    copy_over(out, 0, &[0u8; 41]);
    put_list(s.list, out);
    put_state_in(s.st, out);
}
