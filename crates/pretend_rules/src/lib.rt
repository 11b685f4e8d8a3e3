// The pretend dispenser: the device end of the Model 2000T line, as rules: what it holds, what each call leaves, and what is promised of it; and both ends
// together. Document 02, Q-14.
#![tactic(auto)]

mod device;
mod tally;
mod wire;

pub use device::{Device, Happening, Outcome, Reply, Step};
pub use tally::{Tallies, Tally};
pub use wire::{Act, Heard, Hearing, Stand, Turn, Wire};
