// Replay of a recording through both sessions, as rules: what it leaves for the report, and what is promised of it. Document 01, "Recording and report".
#![tactic(auto)]

mod desk;
mod findings;

pub use desk::{Desk, Replaying};
pub use findings::Findings;
