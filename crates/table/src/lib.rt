// The bottom network: a draft over a table of rows that the caller lends, and the network that it is commissioned into.
#![tactic(auto)]

pub mod draft;
pub mod laws;
pub mod table;

pub use draft::Draft;
pub use table::Table;
