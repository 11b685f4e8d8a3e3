// The dispenser session of the Model 2000T, as rules: what it holds, what each call leaves, and what is promised of it. Document 01, "The dispenser session" and
// "The account".
#![tactic(auto)]

mod account;
mod errors;
mod requests;
mod session;

pub use account::{Account, Cassettes};
pub use errors::LastErrors;
pub use requests::{KeptRequest, Place, Requests, Standing, Written};
pub use session::{Asked, Closing, Opening, Outcome, Reply, Session, Step};
