// The bottleneck of a network: the junctions that open steps reach from the intake, and the reaches that cross from them.
#![tactic(auto)]

pub mod crossing;
pub mod marking;
mod near;

pub use crossing::{Bottleneck, crosses, next_crossing};
pub use marking::bottleneck;
