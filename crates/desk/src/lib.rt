// The commands of a drawing, answered line by line over any network.
#![tactic(auto)]

pub mod answer;
pub mod command;
pub mod desk;
pub mod line;

pub use command::Command;
pub use desk::Desk;
pub use line::Line;
