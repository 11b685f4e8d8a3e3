// The words of a record, both ways: what is said of it, and the record that a line says. The sentences are those of `text`.
#![tactic(auto)]

mod lines;
mod records;

pub use lines::{Spelled, Unclear, first, is_sentence, next};
pub use records::said;
