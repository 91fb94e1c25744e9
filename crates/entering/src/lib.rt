// A C entry's call in place: on the session's bytes where they lie, with what roll-back needs in lent memory.
#![tactic(auto)]

pub mod exchange_entry;
pub mod poll_entry;
pub mod send_entry;
pub mod take_entry;

ghost use Rattle.std.specs.Prelude.{◌≡◌, [], ◌∷◌};
ghost use Rattle.slices.specs.Over.{over};
ghost use Rattle.run_end.specs.RunEnd.{number_by};

use entry::hand::put_result;
use run_end::{RunEnd, refusal_number};

// Value and log length into the result; the refusal's number.
pub fn hand(r: RunEnd, res: &mut [u64]) -> u32
    ensures { (result ≡ number_by r.kind) × (res.new ≡ over res.old 0 (r.value ∷ r.len ∷ [])) }
{
    let k = r.kind;
    put_result(res, r.value, r.len as u64);
    refusal_number(k)
}

// 13: nothing but the result is changed.
pub fn other_length(res: &mut [u64]) -> u32
    ensures { (result ≡ 13) × (res.new ≡ over res.old 0 (0 ∷ 0 ∷ [])) }
{
    put_result(res, 0, 0);
    13
}
