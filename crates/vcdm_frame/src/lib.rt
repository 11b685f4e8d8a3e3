// Frames of the four-cassette unit (VCDM), both sides of the line: commands and answers, written and read. Document 02, Q-3, and 000.
#![tactic(auto)]

mod answer;
mod command;

pub use answer::{answer_length, code_of, read_answer, write_answer};
pub use command::{command_length, is_askable, read_command, write_command};
