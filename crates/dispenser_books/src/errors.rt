// The last error of each cassette: what a call answered changes it, and no sum depends on it.
ghost use Rattle.std.specs.Prelude.{◌≡◌};
ghost use Rattle.dispenser_rules.specs.Errors.{erred_one, erred_by_answer, erred_by_closing, erred_by};

use dispenser_frame_rules::{Answer, Cassette};
use dispenser_rules::{Closing, LastErrors, Reply};
use error_codes::ErrorClass;

// After an answer that speaks of one cassette.
fn one(errors: LastErrors, cassette: Cassette, class: ErrorClass) -> LastErrors
    ensures { result ≡ erred_one errors cassette class }
{
    match cassette {
        Cassette::Upper => LastErrors {
            upper: Some(class),
            ..errors
        },
        Cassette::Lower => LastErrors {
            lower: Some(class),
            ..errors
        },
    }
}

fn by_answer(errors: LastErrors, answer: Answer, class: ErrorClass) -> LastErrors
    ensures { result ≡ erred_by_answer errors answer class }
{
    match answer {
        Answer::PaidOne { cassette, .. } | Answer::Tested { cassette, .. } => {
            one(errors, cassette, class)
        }
        Answer::PaidBoth { .. } => LastErrors {
            upper: Some(class),
            lower: Some(class),
        },
        Answer::Purged { .. } | Answer::Status { .. } => errors,
    }
}

fn by_closing(errors: LastErrors, closing: Closing) -> LastErrors
    ensures { result ≡ erred_by_closing errors closing }
{
    match closing {
        Closing::Answered(answer, class) => by_answer(errors, answer, class),
        Closing::Nothing | Closing::Refused | Closing::Unknown => errors,
    }
}

// After what a call answered.
pub fn erred(errors: LastErrors, reply: Reply) -> LastErrors
    ensures { result ≡ erred_by errors reply }
{
    match reply {
        Ok(done) => by_closing(errors, done.closing),
        Err(_) => errors,
    }
}
