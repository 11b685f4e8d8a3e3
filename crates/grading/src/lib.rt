// Replay of a recording through both sessions, as functions: fed in pieces and ended, or at once. Each is proved to be its rule in `grading_rules`, and sees the line
// part's contracts and nothing else of it.
#![tactic(auto)]

mod desk;

pub use desk::{ended, feed, replay};
