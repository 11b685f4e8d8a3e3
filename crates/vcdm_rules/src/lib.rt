// The session of the four-cassette unit (VCDM), as rules: what it holds, what each call leaves, and what is promised of it. Document 02, Q-3; document 01, "The dispenser
// session" and "The account", for all that the unit shares with the Model 2000T.
#![tactic(auto)]

mod account;
mod session;

pub use account::Account;
pub use session::{Asked, Closing, Finding, Opening, Outcome, Reply, Session, Step};
