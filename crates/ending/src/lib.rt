// `take`, which asks nothing of the bus.
#![tactic(auto)]

pub mod take;
