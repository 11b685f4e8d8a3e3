// Which notes make the sum: how many to take from each of two or four cassettes. Document 02, Q-10.
#![tactic(auto)]

ghost use Rattle.std.specs.Prelude.{◌≡◌, ◌+◌, ◌≤◌, ◌<◌, ◌^◌, length};
ghost use Rattle.payout.specs.Plan.{fits, cassettes_fit, two_or_four, in_range, no_plan_number, Right};
ghost use Rattle.payout.specs.Scaffolding.{Job, Answer, better, notes_of, taken_from, plan_of};

use refusals::{PAYOUT, RANGE};

// A note value is 1 to this, and a stock and an amount are at most that.
const MOST_VALUE: u32 = 1_000_000;

const MOST_STOCK: u32 = 2_000;

const MOST_AMOUNT: u32 = 10_000_000;

// At most so many from each of two cassettes, and so from both.
const EACH_OF_TWO: u32 = 60;

const ALL_OF_TWO: u32 = 2 * EACH_OF_TWO;

// At most so many in all from four.
const ALL_OF_FOUR: u32 = 20;

// Why there is no plan.
#[derive(Clone, Copy)]
pub enum NoPlan {
    // A note value, a stock or the amount is out of range, or there are not two or four of both.
    Range,
    // No counts that are allowed make the amount.
    NoPayout,
}

impl NoPlan {
    // Document 01's number, or 02's.
    pub fn number(self) -> u8
        ensures { result ≡ no_plan_number self }
    {
        match self {
            NoPlan::Range => RANGE,
            NoPlan::NoPayout => PAYOUT,
        }
    }
}

// How many to take from each cassette.
#[derive(Clone, Copy)]
pub enum Plan {
    Two {
        first: u32,
        second: u32,
    },
    Four {
        first: u32,
        second: u32,
        third: u32,
        fourth: u32,
    },
}

// How many to take from each cassette that is left, and how many notes that is. Where fewer are left, the last counts say nothing.
#[derive(Clone, Copy)]
struct Counts {
    notes: u32,
    first: u32,
    second: u32,
    third: u32,
    fourth: u32,
}

// The plan with the fewest notes; among equals the one with the most from the first cassette, then the second, and so on.
pub fn find(values: &[u32], stocks: &[u32], amount: u32) -> Result<Plan, NoPlan>
    ensures { Right values.now stocks.now amount result }
{
    if !is_in_range(values, stocks, amount) {
        Err(NoPlan::Range)
    } else if values.len() == 2 {
        plan_of(fewest(values, stocks, EACH_OF_TWO, ALL_OF_TWO, amount), 2)
    } else {
        plan_of(fewest(values, stocks, ALL_OF_FOUR, ALL_OF_FOUR, amount), 4)
    }
}

// Is every input in its range?
#[tactic(auto, using(refusals::proofs::Rules::tests), unfolding(crate::specs::Plan::in_range))]
fn is_in_range(values: &[u32], stocks: &[u32], amount: u32) -> bool
    ensures { result ≡ (in_range values.now stocks.now amount).test }
{
    amount <= MOST_AMOUNT
        && values.len() == stocks.len()
        && is_two_or_four(values.len())
        && do_fit(values, stocks)
}

fn is_two_or_four(n: usize) -> bool
    ensures { result ≡ (two_or_four n).test }
{
    n == 2 || n == 4
}

// Does every cassette fit?
fn do_fit(values: &[u32], stocks: &[u32]) -> bool
    requires { length values.now ≡ length stocks.now }
    ensures { result ≡ (cassettes_fit values.now stocks.now).test }
{
    for (i, &value) in values.iter().enumerate() {
        if !does_fit(value, stocks[i]) {
            return false;
        }
    }
    true
}

// Are a cassette's note value and stock in their ranges?
fn does_fit(value: u32, stock: u32) -> bool
    ensures { result ≡ (fits value stock).test }
{
    (1..=MOST_VALUE).contains(&value) && stock <= MOST_STOCK
}

// What was found, as the plan for so many cassettes.
fn plan_of(found: Option<Counts>, cassettes: usize) -> Result<Plan, NoPlan>
    ensures { result ≡ plan_of cassettes found }
{
    match found {
        Some(counts) => Ok(taken(counts, cassettes)),
        None => Err(NoPlan::NoPayout),
    }
}

#[tactic(auto, using(refusals::proofs::Rules::tests))]
fn taken(c: Counts, cassettes: usize) -> Plan
    ensures { Ok result ≡ taken_from cassettes c }
{
    if cassettes == 2 {
        Plan::Two {
            first: c.first,
            second: c.second,
        }
    } else {
        Plan::Four {
            first: c.first,
            second: c.second,
            third: c.third,
            fourth: c.fourth,
        }
    }
}

// The search, over the cassettes one by one: with each number of notes from the first of them, the rest of the job is the same job with one cassette
// fewer. It takes at most `each` from a cassette, and at most `room` in all.
fn fewest(values: &[u32], stocks: &[u32], each: u32, room: u32, amount: u32) -> Option<Counts>
    requires { (length values.now ≤ 4) × (length values.now ≡ length stocks.now) × (room ≤ 120) }
    ensures { Answer (Job values.now stocks.now each room amount) (length values.now) result }
{
    if values.is_empty() {
        if amount == 0 {
            return Some(Counts {
                notes: 0,
                first: 0,
                second: 0,
                third: 0,
                fourth: 0,
            });
        }
        return None;
    }
    let value = values[0];
    let most = stocks[0].min(each.min(room));
    let mut found = None;
    let mut left = amount;
    // No `0..=most`: over a range with its end the search takes longer.
    for n in 0..most + 1 {
        let rest = fewest(&values[1..], &stocks[1..], each, room - n, left);
        found = better_of(found, n, rest);
        if left < value {
            return found;
        }
        left -= value;
    }
    found
}

// What was found with fewer notes from the first cassette, or, where it has no more notes in all, what was found with n from it and the rest.
#[tactic(auto, using(refusals::proofs::Rules::tests), unfolding(crate::specs::Scaffolding::better))]
fn better_of(found: Option<Counts>, n: u32, rest: Option<Counts>) -> Option<Counts>
    requires { n + notes_of rest < 2 ^ 32 }
    ensures { result ≡ better found n rest }
{
    let Some(c) = rest else {
        return found;
    };
    let with = Counts {
        notes: n + c.notes,
        first: n,
        second: c.first,
        third: c.second,
        fourth: c.third,
    };
    Some(match found {
        Some(old) if old.notes < with.notes => old,
        _ => with,
    })
}
