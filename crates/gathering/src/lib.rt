// Gathering: a layer over any network, which joins several sources and sinks to one intake and one outfall.
#![tactic(auto)]

pub mod gathering;
pub mod limits;
pub mod role;

pub use gathering::Gathering;
pub use role::Role;
