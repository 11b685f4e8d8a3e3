// Frames of a dispenser, of whatever model: laid and closed by their check, and judged up to their fields. A model's own crate adds its
// table of codes and fields. Document 01, "Dispenser frames".
#![tactic(auto)]

mod frame;

pub use frame::{Digits, EOT, ETX, Fault, SOH, STX, both, count, judge, lay, two_digits};
