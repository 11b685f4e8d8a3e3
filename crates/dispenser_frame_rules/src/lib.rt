// Model 2000T frames, both sides of the line, as rules: the table of codes, what a command and an answer say, their layouts, and what is promised of writing and
// reading them. Document 01, "Dispenser frames".
#![tactic(auto)]

mod answer;
mod command;
mod table;

pub use answer::{Answer, Cassette, Classed};
pub use command::Command;
pub use table::{MODEL_ID, PAY_BOTH, PAY_LOWER, PAY_UPPER, PURGE, STATUS, TEST_LOWER, TEST_UPPER};
