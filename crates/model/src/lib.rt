// Three-phase samples into figures, by the class P model of IEEE C37.118.1-2011 Annex C under document 01's whole-number rules.
#![tactic(auto)]

mod angle;
mod filter;
mod report;

pub use angle::{Angle, Phase};
pub use filter::Sample;
pub use report::{Figures, Phases, measure, measure_kept, newest_phase, phases_of};
