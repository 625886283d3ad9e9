// Labels at the junctions of a network, and the steps that a search by labels takes along them.
#![tactic(auto)]

pub mod exact;
pub mod following;
pub mod gaps;
pub mod labelling;
pub mod moving;
pub mod scanning;

pub use labelling::Labelling;
