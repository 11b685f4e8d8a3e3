// What the sessions made of a record.
ghost use Rattle.std.specs.Prelude.{◌+◌, ◌*◌, ◌≤◌, ◌<◌, length};

use crate::parts::part;
use crate::{books, replies, waits};
use dispenser_rules::Cassettes;
use exchange_rules::Phase;
use grading_rules::Desk;
use recording::Record;
use refusals::Done;
use text::{Said, write};
use validator_rules::Bills;
use views::View;

// What the sessions look like: where each line stands, and what is booked.
#[derive(Clone, Copy)]
pub struct Looks {
    pub dispenser: View,
    pub validator: View,
    pub cassettes: Cassettes,
    pub bills: [Bills; 24],
}

pub fn look(desk: Desk) -> Looks {
    let payer = desk.dispenser;
    let taker = desk.validator;
    let account = payer.account;
    let cassettes = account.cassettes;
    let bills = taker.bills;
    Looks {
        dispenser: views::dispenser(payer),
        validator: views::validator(taker),
        cassettes,
        bills,
    }
}

// What became of a byte that no session kept.
#[derive(Clone, Copy)]
pub enum Passing {
    Ignored,
    Skipped,
}

// What is told of a record: where it ends in the room, and where that ends which the sessions did, before what merely became of a byte; and whether the record was a byte that no session kept.
#[derive(Clone, Copy)]
pub struct Told {
    pub end: usize,
    pub deeds: usize,
    pub passing: Option<Passing>,
}

// A room of so many bytes is never filled by what is told of a record: nothing is cut.
pub const ROOM: usize = 24_576;

// The bytes that go to a line, where there are any: so many from the room's start.
fn sends(line: &mut [u8], at: usize, whose: usize, put: usize, room: &[u8]) -> usize
    ensures { result ≤ at + 520 + 3 * length room.now }
{
    if put == 0 || room.len() < put {
        return at;
    }
    let a = part(line, at, whose, Said::alone(Said::SENDS));
    text::bytes(line, a, &room[0..put])
}

// How the dispenser's command closed, with the fields of an answer.
fn closed(line: &mut [u8], at: usize, closing: dispenser_rules::Closing) -> usize
    ensures { result ≤ at + 1_300 }
{
    let fields = replies::read_out(closing);
    let a = part(
        line,
        at,
        Said::DISPENSER,
        replies::dispenser_closed(closing),
    );
    let b = write(line, a, fields.counts);
    let c = write(line, b, fields.error);
    write(line, c, fields.rest)
}

// What was booked of both cassettes.
fn booked(line: &mut [u8], at: usize, was: Cassettes, is: Cassettes) -> usize
    ensures { result ≤ at + 8_840 }
{
    let a = books::booked(line, at, Said::UPPER, was.upper, is.upper);
    books::booked(line, a, Said::LOWER, was.lower, is.lower)
}

// Which bills were booked.
fn bills(line: &mut [u8], at: usize, was: Looks, is: Looks) -> usize
    ensures { result ≤ at + 6_240 }
{
    let had = was.bills;
    let has = is.bills;
    books::bills(line, at, had, has)
}

// The wait that ended on a line, and the one that began.
fn turned(line: &mut [u8], at: usize, whose: usize, before: View, after: View, ms: u32) -> usize
    ensures { result ≤ at + 1_040 }
{
    let waits = waits::turned(before, after, ms);
    let a = part(line, at, whose, waits.ended);
    part(line, a, whose, waits.begun)
}

// What the dispenser session made of a record.
fn by_dispenser(
    line: &mut [u8],
    reply: dispenser_rules::Reply,
    room: &[u8; 16],
    was: Looks,
    is: Looks,
    ms: u32,
) -> usize
    ensures { result ≤ 11_748 }
{
    match reply {
        Err(why) => write(line, 0, waits::refused(why, was.dispenser)),
        Ok(Done { put, closing }) => {
            let a = sends(line, 0, Said::DISPENSER, put, room);
            let b = closed(line, a, closing);
            let c = booked(line, b, was.cassettes, is.cassettes);
            turned(line, c, Said::DISPENSER, was.dispenser, is.dispenser, ms)
        }
    }
}

// What the validator session made of it, behind what was told of the dispenser's. A tick that both refuse is told once.
fn by_validator(
    line: &mut [u8],
    at: usize,
    reply: validator_rules::Reply,
    room: &[u8; 255],
    was: Looks,
    is: Looks,
    ms: u32,
) -> usize
    ensures { result ≤ at + 9_085 }
{
    match reply {
        Err(why) => {
            if 0 < at {
                return at;
            }
            write(line, at, waits::refused(why, was.validator))
        }
        Ok(Done { put, closing }) => {
            let a = sends(line, at, Said::VALIDATOR, put, room);
            let b = part(line, a, Said::VALIDATOR, replies::validator_closed(closing));
            let c = bills(line, b, was, is);
            turned(line, c, Said::VALIDATOR, was.validator, is.validator, ms)
        }
    }
}

// The milliseconds of a tick.
fn elapsed(x: Record) -> u32 {
    match x {
        Record::Tick(ms) => ms,
        _ => 0,
    }
}

// A byte that its line did not keep, by where the line stood before and after it.
fn passing_in(before: View, after: View) -> Option<Passing> {
    let is = after.phase;
    if !waits::is_same(before, after) {
        return None;
    }
    match is {
        Phase::Idle => Some(Passing::Ignored),
        Phase::Start => Some(Passing::Skipped),
        _ => None,
    }
}

fn passed_over(x: Record, was: Looks, is: Looks) -> Option<Passing> {
    match x {
        Record::DispenserByte(_) => passing_in(was.dispenser, is.dispenser),
        Record::ValidatorByte(_) => passing_in(was.validator, is.validator),
        _ => None,
    }
}

// What is said of a byte that was passed over.
pub fn passed(passing: Passing) -> Said {
    match passing {
        Passing::Ignored => Said::alone(Said::IGNORED),
        Passing::Skipped => Said::alone(Said::SKIPPED),
    }
}

// What became of a byte: it was passed over, or so many of its answer have come.
fn became(x: Record, passing: Option<Passing>, is: Looks) -> Said {
    match passing {
        Some(passing) => passed(passing),
        None => came(x, is),
    }
}

fn came(x: Record, is: Looks) -> Said {
    match x {
        Record::DispenserByte(_) => waits::gathered(is.dispenser),
        Record::ValidatorByte(_) => waits::gathered(is.validator),
        _ => Said::alone(Said::NOTHING),
    }
}

// All that was made of a record, each part behind a semicolon and a blank: from what the sessions looked like before and after it, their replies, and the bytes to send.
pub fn made(
    line: &mut [u8],
    x: Record,
    was: Looks,
    is: Looks,
    dispenser: dispenser_rules::Reply,
    validator: validator_rules::Reply,
    room: &[u8; 16],
    room255: &[u8; 255],
) -> Told
    ensures end_bound { result.end < 24_576 }
    ensures deeds_bound { result.deeds < 24_576 }
{
    let ms = elapsed(x);
    let passing = passed_over(x, was, is);
    let paid = by_dispenser(line, dispenser, room, was, is, ms);
    let deeds = by_validator(line, paid, validator, room255, was, is, ms);
    let end = write(line, deeds, became(x, passing, is));
    Told {
        end,
        deeds,
        passing,
    }
}
