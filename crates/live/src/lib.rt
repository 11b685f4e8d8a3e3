// The desk while it works: `step` gives a record to the session that it is for exactly as replay does, and says which bytes go to which line. `enter` also puts the record's own bytes into a lent
// room, for the recording: replaying what was written down gives this very desk. The rules, and that promise, stand in `live_rules`.
#![tactic(auto)]

mod desk;
mod entry;

pub use desk::step;
pub use entry::{enter, whole_bytes};
