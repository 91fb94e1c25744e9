// The failed join that a poll reports.
ghost use Rattle.std.specs.Prelude.{◌≡◌};
ghost use Rattle.run_end.specs.RunEnd.{Tells};
ghost use Rattle.shown.specs.Shown.{reported_of};
ghost use Rattle.wlan.specs.Results.{Outcome};

use run_end::RunEnd;

// Tag, status, reason.
pub fn reported(r: RunEnd) -> [u64; 3]
    ensures { (o : Outcome) → Tells r o → result ≡ reported_of o }
{
    let f = r.failure;
    [f.tag as u64, f.status as u64, f.reason as u64]
}
