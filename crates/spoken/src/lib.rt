// What is said of a recording: each record entered and told, and its lines and its end on standard output.
#![tactic(auto)]

mod endings;
mod entries;
pub mod lines;
mod sentences;

pub use endings::{ending, report, requests};
pub use entries::{Live, Step, enter};
pub use sentences::{parts, print, say};
