// The parts of a session, each laid over its own bytes alone.
#![tactic(auto, using(session_bytes::proofs::Sized::sized))]

pub mod write;
