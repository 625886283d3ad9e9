// Three searches for the first shortest route. What each answers, the interface in crate routes says.
#![tactic(auto)]

pub mod breadth_first;
pub mod dd1;
pub mod dd2;
pub mod pending;

pub use breadth_first::{BegunBreadthFirst, BreadthFirst};
pub use dd1::{BegunDd1, Dd1};
pub use dd2::{BegunDd2, Dd2};
pub use pending::Pending;
