// The starts that several calls share.
ghost use Rattle.std.specs.Prelude.{◌≡◌};
ghost use Rattle.starting.specs.Starting as to;

use crate::Start;
use control::{Ending, Stage};
use jobs::jobs::request_job;
use requests::Request;
use wlan::DriverError;

// A call that is one exchange.
pub fn single(q: Request, e: Ending) -> Start
    ensures { result ≡ to.single q e }
{
    Start::Exchange(request_job(q, e), Stage::Single)
}

pub fn invalid_arg() -> Start
    ensures { result ≡ to.invalid_arg }
{
    Start::Refused(DriverError::InvalidArg)
}
