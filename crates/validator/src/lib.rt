// The functions of the validator session: its bills, and the calls that join them with its line and the frames. What each must do, and what is
// promised of that, stands in `validator_rules`. Document 01, "The validator session".
#![tactic(auto)]

mod bills;
mod session;

pub use bills::booked;
pub use session::{byte, request, step_byte, step_request, step_tick, tick};
