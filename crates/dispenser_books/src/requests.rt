// The last paying requests, and the account that keeps them beside the sums.
ghost use Rattle.std.specs.Prelude.{◌≡◌};
ghost use Rattle.dispenser_rules.specs.Requests.{slot_behind, one_more, newest_slot, unwritten, slots_after, around, kept_at};
ghost use Rattle.dispenser_rules.specs.Session.{pays, paid_one, paid_by, wrote, written_at, written_by, place_after, requests_at, account_asked, account_heard};
ghost use Rattle.exchange_rules.specs.Sums.{notes};
ghost use Rattle.dispenser_rules.specs.declared.requests.Standing.TheVariants.{Answered};

use crate::account::{booked, booked_request};
use dispenser_frame_rules::{Answer, Cassette, PAY_BOTH, PAY_LOWER, PAY_UPPER};
use dispenser_rules::{
    Account, Asked, Closing, KeptRequest, Place, Reply, Requests, Standing, Written,
};
use exchange_rules::Notes;

// Does a command with this code pay?
#[tactic(auto, using(refusals::proofs::Rules::tests), unfolding(dispenser_rules::specs::Session::pays))]
pub fn pays(code: u8) -> bool
    ensures { result ≡ pays code }
{
    matches!(code, PAY_UPPER | PAY_LOWER | PAY_BOTH)
}

#[tactic(auto, unfolding(dispenser_rules::specs::Requests::slot_behind))]
fn slot_behind(slot: usize) -> usize
    ensures { result ≡ slot_behind slot }
{
    if slot < 31 { slot + 1 } else { 0 }
}

#[tactic(auto, unfolding(dispenser_rules::specs::Requests::one_more))]
fn one_more(held: usize) -> usize
    ensures { result ≡ one_more held }
{
    if held < Requests::MOST {
        held + 1
    } else {
        held
    }
}

// The place after what a request answered: an accepted paying one takes the next slot.
pub fn advance(place: Place, asked: Asked, reply: Reply) -> Place
    ensures { result ≡ place_after place asked reply }
{
    match reply {
        Ok(_) if pays(asked.code) => Place {
            next: slot_behind(place.next),
            held: one_more(place.held),
        },
        _ => place,
    }
}

// The slot of the newest request.
#[tactic(auto, unfolding(dispenser_rules::specs::Requests::newest_slot))]
fn newest_slot(place: Place) -> usize
    ensures { result ≡ newest_slot place }
{
    place.next.checked_sub(1).unwrap_or(31)
}

// Nothing is written down.
pub fn unwritten() -> Written
    ensures { result ≡ unwritten }
{
    Written {
        slot: Requests::MOST,
        request: KeptRequest {
            code: 0,
            upper: 0,
            lower: 0,
            handed: 0,
            standing: Standing::Open,
        },
    }
}

// How the command now stands, if it pays.
#[tactic(auto, unfolding(dispenser_rules::specs::Session::wrote))]
fn wrote(place: Place, asked: Asked, handed: u32, standing: Standing) -> Written
    ensures { result ≡ wrote place asked handed standing }
{
    if pays(asked.code) {
        Written {
            slot: newest_slot(place),
            request: KeptRequest {
                code: asked.code,
                upper: asked.upper,
                lower: asked.lower,
                handed,
                standing,
            },
        }
    } else {
        unwritten()
    }
}

// So many notes were paid from each cassette.
fn paid(upper: u32, lower: u32) -> Standing
    ensures { result ≡ Answered (notes upper) (notes lower) }
{
    Standing::Answered {
        upper: Notes(upper),
        lower: Notes(lower),
    }
}

fn paid_one(cassette: Cassette, exit: u32) -> Standing
    ensures { result ≡ paid_one cassette exit }
{
    match cassette {
        Cassette::Upper => paid(exit, 0),
        Cassette::Lower => paid(0, exit),
    }
}

// The notes that an answer says were paid from each cassette.
fn paid_by(answer: Answer) -> Standing
    ensures { result ≡ paid_by answer }
{
    match answer {
        Answer::PaidOne { cassette, exit, .. } => paid_one(cassette, exit),
        Answer::PaidBoth {
            upper_exit,
            lower_exit,
            ..
        } => paid(upper_exit, lower_exit),
        Answer::Purged { .. } | Answer::Tested { .. } | Answer::Status { .. } => paid(0, 0),
    }
}

fn write_closing(place: Place, asked: Asked, handed: u32, put: usize, closing: Closing) -> Written
    ensures { result ≡ written_at place asked handed put closing }
{
    match closing {
        Closing::Nothing if 1 < put => wrote(place, asked, handed, Standing::Open),
        Closing::Nothing => unwritten(),
        Closing::Answered(answer, _) => wrote(place, asked, handed, paid_by(answer)),
        Closing::Refused => wrote(place, asked, handed, Standing::Refused),
        Closing::Unknown => wrote(place, asked, handed, Standing::Unknown),
    }
}

// What a call writes down of the open request, so often handed over: where a frame was put, and where it closed. The caller puts it into its slot.
pub fn write_down(place: Place, asked: Asked, handed: u32, reply: Reply) -> Written
    ensures { result ≡ written_by place asked handed reply }
{
    match reply {
        Ok(done) => write_closing(place, asked, handed, done.put, done.closing),
        Err(_) => unwritten(),
    }
}

// The slots with what was written down.
fn stored(mut slots: [KeptRequest; 32], written: Written) -> [KeptRequest; 32]
    ensures { result ≡ slots_after slots written }
{
    if written.slot < Requests::MOST {
        slots[written.slot] = written.request;
    }
    slots
}

// The kept requests with what a call wrote down.
fn noted(was: Requests, place: Place, asked: Asked, handed: u32, reply: Reply) -> Requests
    ensures { result ≡ requests_at place was asked handed reply }
{
    Requests {
        place,
        slots: stored(was.slots, write_down(place, asked, handed, reply)),
    }
}

// The account after what a request answered; `handed` is how often its command was handed over.
#[tactic(auto, unfolding(dispenser_rules::specs::Session::account_asked))]
pub fn asked(account: Account, asked: Asked, handed: u32, reply: Reply) -> Account
    ensures { result ≡ account_asked account asked handed reply }
{
    let place = advance(account.requests.place, asked, reply);
    Account {
        cassettes: booked_request(account.cassettes, asked, reply),
        requests: noted(account.requests, place, asked, handed, reply),
    }
}

// The account after what a byte or a tick answered.
#[tactic(auto, unfolding(dispenser_rules::specs::Session::account_heard))]
pub fn heard(account: Account, asked: Asked, handed: u32, reply: Reply) -> Account
    ensures { result ≡ account_heard account asked handed reply }
{
    let Account {
        cassettes,
        requests,
    } = account;
    Account {
        cassettes: booked(cassettes, asked, reply),
        requests: noted(requests, requests.place, asked, handed, reply),
    }
}

#[tactic(auto, unfolding(dispenser_rules::specs::Requests::around))]
fn around(slot: usize) -> usize
    ensures { result ≡ around slot }
{
    if slot < Requests::MOST {
        slot
    } else {
        slot - Requests::MOST
    }
}

// The request that is kept at a place, the oldest at 0, or nothing.
pub fn kept_at(requests: Requests, place: usize) -> Option<KeptRequest>
    ensures { result ≡ kept_at requests place }
{
    let Place { next, held } = requests.place;
    if held <= place || Requests::MOST < held || Requests::MOST <= next {
        return None;
    }
    let slot = around(next + (Requests::MOST - held + place));
    Some(requests.slots[slot])
}
