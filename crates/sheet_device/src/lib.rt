// The device's end in a run of moves, for the programs that pretend to be a dispenser: what the words of a run say, the bytes on their way, and the calls. These are a test's own tools: what
// they lead to is printed and compared.
#![tactic(auto)]

mod device;
pub mod moves;
mod ways;

pub use device::moved;
pub use ways::Way;
