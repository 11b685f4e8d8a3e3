// The dispenser session for a program in C or Rust: what it links, in numbers alone. `rt staticlib` makes the archive, and link/dispenser.h has what such a program sees.
#![tactic(auto)]

mod calls;
mod held;

pub use calls::{
    dispenser_byte, dispenser_clear, dispenser_fresh, dispenser_lower, dispenser_request,
    dispenser_tick, dispenser_upper,
};
pub use held::{Held, HeldAsked, HeldOutcome, HeldReply, HeldSums};
