// Reads a drawing: its bytes, as a list of records.
#![tactic(auto)]

pub mod kind;
pub mod reader;
pub mod record;

pub use reader::Reader;
pub use record::Record;
