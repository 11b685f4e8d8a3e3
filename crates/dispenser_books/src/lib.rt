// The books of the Model 2000T: the sums of its two cassettes, the last paying requests, and the last error of each cassette. What a call answered changes them. Each
// function is proved to be its rule in `dispenser_rules`.
#![tactic(auto)]

mod account;
mod errors;
mod requests;

pub use account::{booked, booked_request};
pub use errors::erred;
pub use requests::{advance, asked, heard, kept_at, pays, unwritten, write_down};
