// The whole report of a drawing: from its bytes to a desk over its network with its layers, and all that is printed.
#![tactic(auto)]

pub mod laws;
pub mod printed;
pub mod setup;

pub use printed::Report;
pub use setup::{Stack, open};
