// The books of the four-cassette unit: the account of its cassettes after what a call answered. Document 02, Q-3; document 01, "The account".
#![tactic(auto)]

mod account;

pub use account::{booked, booked_request};
