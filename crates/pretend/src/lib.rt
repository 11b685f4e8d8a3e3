// The pretend dispenser, as functions: the device end of the Model 2000T line, for a bench without hardware. It reads command frames a byte at a time, is told by its
// caller what was paid and rejected, and answers. Each is proved to be its rule in `pretend_rules`.
#![tactic(auto)]

mod device;
mod tally;
mod wire;

pub use device::{byte, tell, tick};
pub use wire::is_busy;
