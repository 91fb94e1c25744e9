// The small steps.
ghost use Rattle.std.specs.Prelude.{◌≡◌};
ghost use Rattle.definition.specs.Join.{is_dev_error};

use wlan::DriverError;

// What the Rust has as a `DevError`.
#[tactic(auto, unfolding(definition::specs::Join::is_dev_error))]
pub fn is_dev_error(e: DriverError) -> bool
    ensures { result ≡ is_dev_error e }
{
    matches!(
        e,
        DriverError::InvalidArg | DriverError::Timeout | DriverError::Io | DriverError::Fault(_)
    )
}
