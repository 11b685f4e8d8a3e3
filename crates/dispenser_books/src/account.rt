// The sums: what becomes of the notes that were asked, for each cassette. They know nothing of bytes.
ghost use Rattle.std.specs.Prelude.{◌≡◌};
ghost use Rattle.dispenser_rules.specs.Account.{account_opened, account_paid, account_tested, account_answered, account_refused, account_unknown};
ghost use Rattle.dispenser_rules.specs.Session.{closed_by, booked_by, request_booked};

use dispenser_frame_rules::{Answer, Cassette};
use dispenser_rules::{Asked, Cassettes, Closing, Reply};
use exchange::sums;
use exchange_rules::Sums;

// What `change` makes of each cassette's sums and of the notes that were asked of it.
fn each<F: Fn(Sums, u32) -> Sums>(was: Cassettes, asked: Asked, change: F) -> Cassettes
    requires { F.IsAlwaysCallable change }
    ensures upper { F.post change was.upper asked.upper result.upper }
    ensures lower { F.post change was.lower asked.lower result.lower }
{
    Cassettes {
        upper: change(was.upper, asked.upper),
        lower: change(was.lower, asked.lower),
    }
}

// A request is accepted.
#[tactic(auto, unfolding(dispenser_rules::specs::Account::account_opened))]
fn opened(was: Cassettes, asked: Asked) -> Cassettes
    ensures { result ≡ account_opened was asked }
{
    each(was, asked, sums::opened)
}

// It is closed as refused.
#[tactic(auto, unfolding(dispenser_rules::specs::Account::account_refused))]
fn closed_refused(was: Cassettes, asked: Asked) -> Cassettes
    ensures { result ≡ account_refused was asked }
{
    each(was, asked, sums::closed_refused)
}

// It is closed as unknown.
#[tactic(auto, unfolding(dispenser_rules::specs::Account::account_unknown))]
fn closed_unknown(was: Cassettes, asked: Asked) -> Cassettes
    ensures { result ≡ account_unknown was asked }
{
    each(was, asked, sums::closed_unknown)
}

// It is answered.
fn answered(was: Cassettes, asked: Asked, answer: Answer) -> Cassettes
    ensures { result ≡ account_answered was asked answer }
{
    match answer {
        Answer::PaidOne {
            cassette,
            exit,
            rejects,
            ..
        } => paid_one(was, asked, cassette, exit, rejects),
        Answer::PaidBoth {
            upper_exit,
            lower_exit,
            upper_rejects,
            lower_rejects,
            ..
        } => Cassettes {
            upper: sums::answered(was.upper, asked.upper, upper_exit, upper_rejects),
            lower: sums::answered(was.lower, asked.lower, lower_exit, lower_rejects),
        },
        Answer::Tested {
            cassette,
            rejects,
            ..
        } => tested(was, cassette, rejects),
        Answer::Purged { .. } | Answer::Status { .. } => was,
    }
}

fn paid_one(was: Cassettes, asked: Asked, cassette: Cassette, exit: u32, rejects: u32) -> Cassettes
    ensures { result ≡ account_paid was asked cassette exit rejects }
{
    match cassette {
        Cassette::Upper => Cassettes {
            upper: sums::answered(was.upper, asked.upper, exit, rejects),
            ..was
        },
        Cassette::Lower => Cassettes {
            lower: sums::answered(was.lower, asked.lower, exit, rejects),
            ..was
        },
    }
}

fn tested(was: Cassettes, cassette: Cassette, rejects: u32) -> Cassettes
    ensures { result ≡ account_tested was cassette rejects }
{
    match cassette {
        Cassette::Upper => Cassettes {
            upper: sums::rejected(was.upper, rejects),
            ..was
        },
        Cassette::Lower => Cassettes {
            lower: sums::rejected(was.lower, rejects),
            ..was
        },
    }
}

// The sums after a closing.
fn close(was: Cassettes, asked: Asked, closing: Closing) -> Cassettes
    ensures { result ≡ closed_by was asked closing }
{
    match closing {
        Closing::Nothing => was,
        Closing::Answered(answer, _) => answered(was, asked, answer),
        Closing::Refused => closed_refused(was, asked),
        Closing::Unknown => closed_unknown(was, asked),
    }
}

// The sums after what a byte or a tick answered.
pub fn booked(was: Cassettes, asked: Asked, reply: Reply) -> Cassettes
    ensures { result ≡ booked_by was asked reply }
{
    match reply {
        Ok(done) => close(was, asked, done.closing),
        Err(_) => was,
    }
}

// The sums after what a request answered.
pub fn booked_request(was: Cassettes, asked: Asked, reply: Reply) -> Cassettes
    ensures { result ≡ request_booked was asked reply }
{
    if reply.is_ok() {
        opened(was, asked)
    } else {
        was
    }
}
