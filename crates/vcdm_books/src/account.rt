// The account of the four cassettes: what becomes of the notes that were asked. It knows nothing of bytes.
ghost use Rattle.std.specs.Prelude.{◌≡◌};
ghost use Rattle.vcdm_rules.specs.Account.{account_opened, account_paid, account_answered, account_refused, account_unknown};
ghost use Rattle.vcdm_rules.specs.Session.{closed_by, booked_by, request_booked};

use exchange::sums;
use exchange_rules::Sums;
use vcdm_frame_rules::{Answer, Cassettes, Counts};
use vcdm_rules::{Account, Asked, Closing, Reply};

// What `change` makes of each cassette's sums and of the notes that were asked of it.
fn each<F: Fn(Sums, u32) -> Sums>(was: Account, asked: Counts, change: F) -> Account
    requires { F.IsAlwaysCallable change }
    ensures top { F.post change was.top asked.top result.top }
    ensures second { F.post change was.second asked.second result.second }
    ensures third { F.post change was.third asked.third result.third }
    ensures bottom { F.post change was.bottom asked.bottom result.bottom }
{
    Account {
        top: change(was.top, asked.top),
        second: change(was.second, asked.second),
        third: change(was.third, asked.third),
        bottom: change(was.bottom, asked.bottom),
    }
}

// A request is accepted.
#[tactic(auto, unfolding(vcdm_rules::specs::Account::account_opened))]
fn opened(was: Account, asked: Counts) -> Account
    ensures { result ≡ account_opened was asked }
{
    each(was, asked, sums::opened)
}

// It is closed as refused.
#[tactic(auto, unfolding(vcdm_rules::specs::Account::account_refused))]
fn closed_refused(was: Account, asked: Counts) -> Account
    ensures { result ≡ account_refused was asked }
{
    each(was, asked, sums::closed_refused)
}

// It is closed as unknown.
#[tactic(auto, unfolding(vcdm_rules::specs::Account::account_unknown))]
fn closed_unknown(was: Account, asked: Counts) -> Account
    ensures { result ≡ account_unknown was asked }
{
    each(was, asked, sums::closed_unknown)
}

// A dispense is answered: EXIT pays, REJECT stands apart.
#[tactic(auto, unfolding(vcdm_rules::specs::Account::account_paid))]
fn paid(was: Account, asked: Counts, told: Cassettes) -> Account
    ensures { result ≡ account_paid was asked told }
{
    Account {
        top: sums::answered(was.top, asked.top, told.top.exit, told.top.rejects),
        second: sums::answered(
            was.second,
            asked.second,
            told.second.exit,
            told.second.rejects,
        ),
        third: sums::answered(was.third, asked.third, told.third.exit, told.third.rejects),
        bottom: sums::answered(
            was.bottom,
            asked.bottom,
            told.bottom.exit,
            told.bottom.rejects,
        ),
    }
}

// It is answered. No answer but a dispense's alters a sum.
fn answered(was: Account, asked: Counts, answer: Answer) -> Account
    ensures { result ≡ account_answered was asked answer }
{
    match answer {
        Answer::Dispensed { cassettes, .. } => paid(was, asked, cassettes),
        Answer::Reset { .. }
        | Answer::Status { .. }
        | Answer::Purged { .. }
        | Answer::Last { .. } => was,
    }
}

// The account after a closing.
fn close(account: Account, asked: Asked, closing: Closing) -> Account
    ensures { result ≡ closed_by account asked closing }
{
    match closing {
        Closing::Nothing => account,
        Closing::Answered(answer) => answered(account, asked.counts, answer),
        Closing::Refused => closed_refused(account, asked.counts),
        Closing::Unknown => closed_unknown(account, asked.counts),
    }
}

// The account after what a byte or a tick answered.
pub fn booked(account: Account, asked: Asked, reply: Reply) -> Account
    ensures { result ≡ booked_by account asked reply }
{
    match reply {
        Ok(done) => close(account, asked, done.closing),
        Err(_) => account,
    }
}

// The account after what a request answered.
pub fn booked_request(account: Account, asked: Asked, reply: Reply) -> Account
    ensures { result ≡ request_booked account asked reply }
{
    if reply.is_ok() {
        opened(account, asked.counts)
    } else {
        account
    }
}
