// The validator session: what it is, and what is promised of it. Document 01, "The validator session".
#![tactic(auto)]

mod bills;
mod line;
mod session;

pub use bills::Bills;
pub use line::{Heard, Hearing, Line, Phase, Todo, Turn};
pub use session::{Closing, Outcome, Reply, Session, Step};
