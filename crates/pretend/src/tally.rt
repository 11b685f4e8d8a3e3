// The device's own account: what its caller said was paid or rejected is booked once, when the telling is accepted.
ghost use Rattle.std.specs.Prelude.{◌≡◌};
ghost use Rattle.pretend_rules.specs.Tally.{more, rejected_more, paid_more, tested_more, told};
ghost use Rattle.pretend_rules.specs.Device.{tallied_by};

use dispenser_frame_rules::{Answer, Cassette};
use exchange::sums::plus;
use pretend_rules::{Reply, Tallies, Tally};

// e notes paid, r rejected.
#[tactic(auto, unfolding(pretend_rules::specs::Tally::more))]
fn more(was: Tally, e: u32, r: u32) -> Tally
    ensures { result ≡ more was e r }
{
    Tally {
        paid: plus(was.paid, e),
        rejected: plus(was.rejected, r),
    }
}

// r notes rejected.
#[tactic(auto, unfolding(pretend_rules::specs::Tally::rejected_more))]
fn rejected_more(was: Tally, r: u32) -> Tally
    ensures { result ≡ rejected_more was r }
{
    Tally {
        rejected: plus(was.rejected, r),
        ..was
    }
}

// A payout from one cassette.
fn paid_more(was: Tallies, cassette: Cassette, e: u32, r: u32) -> Tallies
    ensures { result ≡ paid_more was cassette e r }
{
    match cassette {
        Cassette::Upper => Tallies {
            upper: more(was.upper, e, r),
            ..was
        },
        Cassette::Lower => Tallies {
            lower: more(was.lower, e, r),
            ..was
        },
    }
}

// A test of one cassette.
fn tested_more(was: Tallies, cassette: Cassette, r: u32) -> Tallies
    ensures { result ≡ tested_more was cassette r }
{
    match cassette {
        Cassette::Upper => Tallies {
            upper: rejected_more(was.upper, r),
            ..was
        },
        Cassette::Lower => Tallies {
            lower: rejected_more(was.lower, r),
            ..was
        },
    }
}

// The caller tells an answer's fields: the EXIT count was paid.
fn told(was: Tallies, answer: Answer) -> Tallies
    ensures { result ≡ told was answer }
{
    match answer {
        Answer::Purged { .. } | Answer::Status { .. } => was,
        Answer::PaidOne {
            cassette,
            exit,
            rejects,
            ..
        } => paid_more(was, cassette, exit, rejects),
        Answer::PaidBoth {
            upper_exit,
            lower_exit,
            upper_rejects,
            lower_rejects,
            ..
        } => Tallies {
            upper: more(was.upper, upper_exit, upper_rejects),
            lower: more(was.lower, lower_exit, lower_rejects),
        },
        Answer::Tested {
            cassette,
            rejects,
            ..
        } => tested_more(was, cassette, rejects),
    }
}

// After what a telling answered.
pub(crate) fn tallied(was: Tallies, answer: Answer, reply: Reply) -> Tallies
    ensures { result ≡ tallied_by was answer reply }
{
    match reply {
        Err(_) => was,
        Ok(_) => told(was, answer),
    }
}
