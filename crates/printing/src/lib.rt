// The report of a drawing, written into bytes that the caller lends, and whether a drawing is accepted. Nothing here can
// fail: what has no room is counted and not written.
#![tactic(auto)]

pub mod checking;
pub mod lines;
pub mod room;
pub mod whole;

pub use checking::check;
pub use room::Room;
pub use whole::write_report;
