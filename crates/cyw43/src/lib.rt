// The fourteen calls. Lent: the recording, the log, the work buffer, byte arguments, an output where there is one; by value: the
// state, the scan list, numbers. Each contract is one equation with the definition, refusals included.
#![tactic(auto)]

pub mod calls;
pub mod frames;
pub mod fresh;
pub mod ioctls;
