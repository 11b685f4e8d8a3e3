// The session of the four-cassette unit (VCDM): its calls, each proved to be its rule. Document 02, Q-3; document 01, "The dispenser session".
#![tactic(auto)]

mod session;

pub use session::{byte, request, tick};
