// The entries of a drawing: its chambers, sources and sinks, read into layers over any network.
#![tactic(auto)]

pub mod reading;

pub use reading::{enter_chambers, enter_feeders};
