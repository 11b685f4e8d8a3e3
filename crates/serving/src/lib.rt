// Events served: each is entered by `live`, its bytes are written to the recording, and only then standard output says which bytes go to which line, and what happened.
#![tactic(auto)]

mod events;
mod guard;
mod lines;

pub use events::run;
pub use guard::{QUIET, going_on};
pub use lines::failed;
