// Which bytes are a session's.
#![tactic(auto)]

pub mod parts;

ghost use Rattle.std.specs.Prelude.{◌≡◌};
ghost use Rattle.session_bytes.specs.Session as to;

use crate::parts::{front_form, link_form, pending_form};

// Any bytes hold a scan list: only the state's are tested.
pub fn is_session(bytes: &[u8]) -> bool
    ensures { result ≡ to.is_session bytes.now }
{
    bytes.len() == 1393
        && front_form(&bytes[..7])
        && pending_form(&bytes[7..21])
        && link_form(&bytes[21..41])
}
