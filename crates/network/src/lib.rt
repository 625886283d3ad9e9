// Networks: the interface that every network offers, the record of a reach, and the plain rows that networks are kept in.
#![tactic(auto)]

pub mod bounds;
pub mod change;
pub mod going;
pub mod interface;
pub mod laws;
pub mod reach;
pub mod row;
pub mod rows;
pub mod size;

pub use change::Change;
pub use going::{Reaches, Touching};
pub use interface::Network;
pub use reach::{BrokenBound, Reach, Way};
pub use row::Row;
pub use size::Size;
