// What an event does to the scan list, where the list lies in a session's 1,393 bytes: the count from 41 on, then 32 records of
// 42 bytes. A record is compared where it lies, and laid over its own bytes alone.
#![tactic(auto)]

pub mod result;

ghost use Rattle.std.specs.Prelude.{◌≡◌, true, length};
ghost use Rattle.slices.specs.Over.{over};
ghost use Rattle.definition.specs.Scan.{cleared};
ghost use Rattle.state_bytes.specs.StateBytes.{le64};
ghost use Rattle.session_bytes.specs.Session.{session_in, is_session};
ghost use Rattle.places.specs.Places.{Holds};
ghost use Rattle.hearing.specs.Hearing as to;

use session_bytes::list::{count_bytes, put_whole};
use wlan::SessionBytes;

pub fn count_in(s: &SessionBytes) -> usize
    ensures { result ≡ (session_in s.now).list.count }
{
    usize::from_le_bytes([s[41], s[42], s[43], s[44], s[45], s[46], s[47], s[48]])
}

fn put_count(s: &mut SessionBytes, n: usize)
    ensures { s.new ≡ over s.old 41 (le64 n) }
{
    put_whole(s, 41, &count_bytes(n));
}

// The records stay.
pub fn clear(s: &mut SessionBytes)
    requires { is_session s.old ≡ true }
    ensures { Holds s.new (to.with_list s.old (cleared (session_in s.old).list)) }
{
    put_count(s, 0);
}
