// The sentences of `explain`. Each stands once, in the table of `sentences`: `write` puts it into a lent room with its values, and `hear` finds it in a line, with its values.
#![tactic(auto)]

mod reading;
mod sentences;
mod writing;

pub use reading::{Heard, hear, past_blanks};
pub use writing::{byte, bytes, write};

// A sentence, and the values that stand in it, in their order.
#[derive(Clone, Copy)]
pub struct Said {
    pub sentence: usize,
    pub values: [u64; 4],
}

impl Said {
    pub fn alone(sentence: usize) -> Said {
        Said {
            sentence,
            values: [0; 4],
        }
    }

    pub fn with(sentence: usize, values: [u64; 4]) -> Said {
        Said { sentence, values }
    }
}
