// The judging of one device report against the reference figures that the bench supplies.
#![tactic(auto)]

mod errors;
mod judging;
mod limits;

pub use errors::{Device, Reference};
pub use judging::{Verdict, judge};
pub use limits::Limits;
