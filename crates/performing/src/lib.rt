// Any one call on a network, made by one function, whose contract carries what is promised of every list of calls.
#![tactic(auto)]

pub mod answer;
pub mod call;
pub mod laws;
pub mod performing;

pub use answer::Answer;
pub use call::Call;
pub use performing::perform;
