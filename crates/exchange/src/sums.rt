// The sums of a cassette.
ghost use Rattle.std.specs.Prelude.{◌≡◌, ◌-◌};
ghost use Rattle.exchange_rules.specs.Sums.{plus, sums_opened, sums_answered, sums_refused, sums_unknown, sums_rejected};

use exchange_rules::{Notes, Sums};

// So many notes more. A sum past the end of u32 would stay where it is: no session from a fresh one comes near, since it accepts
// no more than 1,000,000 commands (`NeverCut` in dispenser_rules/specs/History.antt), and no device, since it answers no more (`OwnAccount` in
// pretend_rules/specs/History.antt).
#[tactic(auto, unfolding(exchange_rules::specs::Sums::plus))]
pub fn plus(was: Notes, n: u32) -> Notes
    ensures { result ≡ plus was n }
{
    was.0.checked_add(n).map_or(was, Notes)
}

// q notes are asked.
#[tactic(auto, unfolding(exchange_rules::specs::Sums::sums_opened))]
pub fn opened(was: Sums, q: u32) -> Sums
    ensures { result ≡ sums_opened was q }
{
    Sums {
        asked: plus(was.asked, q),
        pending: Notes(q),
        ..was
    }
}

// q notes were asked, and e went out; r were rejected.
#[tactic(auto, unfolding(exchange_rules::specs::Sums::sums_answered))]
pub fn answered(was: Sums, q: u32, e: u32, r: u32) -> Sums
    ensures { result ≡ sums_answered was q e r }
{
    Sums {
        paid: plus(was.paid, e),
        short: plus(was.short, q.saturating_sub(e)),
        over: plus(was.over, e.saturating_sub(q)),
        pending: Notes(0),
        rejected: plus(was.rejected, r),
        ..was
    }
}

// q notes were asked, and refused.
#[tactic(auto, unfolding(exchange_rules::specs::Sums::sums_refused))]
pub fn closed_refused(was: Sums, q: u32) -> Sums
    ensures { result ≡ sums_refused was q }
{
    Sums {
        refused: plus(was.refused, q),
        pending: Notes(0),
        ..was
    }
}

// q notes were asked, and nobody knows what became of them.
#[tactic(auto, unfolding(exchange_rules::specs::Sums::sums_unknown))]
pub fn closed_unknown(was: Sums, q: u32) -> Sums
    ensures { result ≡ sums_unknown was q }
{
    Sums {
        unknown: plus(was.unknown, q),
        pending: Notes(0),
        ..was
    }
}

// r notes were rejected by a test.
#[tactic(auto, unfolding(exchange_rules::specs::Sums::sums_rejected))]
pub fn rejected(was: Sums, r: u32) -> Sums
    ensures { result ≡ sums_rejected was r }
{
    Sums {
        rejected: plus(was.rejected, r),
        ..was
    }
}
