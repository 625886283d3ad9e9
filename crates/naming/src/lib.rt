// Names of junctions, and how a junction is shown where it is printed.
#![tactic(auto)]

pub mod label;
pub mod names;

pub use label::Label;
pub use names::Names;
