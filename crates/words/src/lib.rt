// What the sessions made of a record, in the words of document 01, for a student and a marker: told from their replies, their views and the account before and after. Nothing here knows a rule.
// The sentences are those of `text`; the words of the record itself are those of `spelling`.
#![tactic(auto)]

mod books;
mod parts;
mod replies;
mod telling;
mod waits;

pub use books::{REQUESTS_ROOM, requests};
pub use telling::{Looks, Passing, ROOM, Told, look, made, passed};
