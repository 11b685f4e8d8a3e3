// What every dispenser shares, as rules: the line and its limits, notes and the sums of a cassette; and, in specs/ and proofs/, the session over any unit
// and demand 3 of it. Document 01, "The dispenser session" and "The account".
#![tactic(auto)]

mod line;
mod notes;
mod step;

pub use line::{Heard, Hearing, Line, Phase, Todo, Turn};
pub use notes::{Notes, Sums};
pub use step::Step;
