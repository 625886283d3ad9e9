// What all layers share. A layer is a network that stands over any other network, holds it by value, and adds
// reaches of its own behind those of the network below.
#![tactic(auto)]

pub mod ends;
pub mod entering;
pub mod extended;
pub mod laws;
pub mod own;

pub use ends::{End, next_at};
pub use entering::{carries_any, is_crowded};
pub use extended::Extended;
pub use own::{NotInserted, OwnRows};
