// Calls over every network, each proved once, against the interface's meaning.
#![tactic(auto)]

pub mod draining;
pub mod laws;
mod pushing;
pub mod settling;
pub mod tallying;

pub use draining::drain;
pub use settling::{Settled, settle};
pub use tallying::tally;
