// The desk while it works, as rules: what a step leaves, what it is to enter a record, and what is promised of that. The functions stand in `live`.
#![tactic(auto)]

mod desk;
mod entry;

pub use desk::Lived;
pub use entry::{Entered, NotEntered};
