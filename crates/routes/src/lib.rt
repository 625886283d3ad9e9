// Routes as they are answered, the open steps at a junction, and the interface of searches.
#![tactic(auto)]

pub mod route;
pub mod searching;
pub mod step;

pub use route::Route;
pub use searching::{Begun, Search};
pub use step::{FIRST_STEP, OpenStep, OpenSteps, StepEnd, begin_of, way_of};
