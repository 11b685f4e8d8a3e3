// The bills taken in, one count for each type. They know nothing of bytes.
ghost use Rattle.std.specs.Prelude.{◌≡◌};
ghost use Rattle.validator_rules.specs.Bills.{plus, booked_by};

use validator_rules::{Bills, Session};

// So many bills more. A sum past the end of u32 would stay where it is: no session from a fresh one comes near, since each bill is
// the answer to a command and it accepts no more than 1,000,000 (`few` of `KeptByHistory` in validator_rules/specs/History.antt).
#[tactic(auto, using(refusals::proofs::Rules::tests), unfolding(validator_rules::specs::Bills::plus))]
fn plus(bills: Bills, n: u32) -> Bills
    ensures { result ≡ plus bills n }
{
    match bills.0.checked_add(n) {
        Some(sum) => Bills(sum),
        None => bills,
    }
}

// The bills after a step that credits one of that type, or none.
#[tactic(auto, using(refusals::proofs::Rules::tests), unfolding(validator_rules::specs::Bills::booked_by))]
pub fn booked(counts: [Bills; 24], bill: Option<usize>) -> [Bills; 24]
    ensures { result ≡ booked_by counts bill }
{
    let mut next = counts;
    if let Some(bill) = bill
        && bill < Session::TYPES
    {
        next[bill] = plus(counts[bill], 1);
    }
    next
}
