// A fresh start takes no payout before the line has been quiet as long as after an unknown closing: an answer to an old host's command may still be on its way.
use dispenser_books::pays;
use dispenser_rules::Session;
use grading_rules::Desk;
use recording::Record;

// Document 01, "The dispenser session": after an unknown closing the next command needs so many milliseconds of quiet.
pub const QUIET: u32 = Session::LONG_QUIET as u32;

// What is left of them where a recording goes on: one that has a payout took it when they were over. Else nobody knows, and they start again.
pub fn going_on(desk: Desk) -> u32 {
    let dispenser = desk.dispenser;
    let account = dispenser.account;
    let requests = account.requests;
    let place = requests.place;
    if place.held == 0 {
        return QUIET;
    }
    0
}

// Is the record an order that pays, before the line has been quiet long enough?
pub(crate) fn holds(left: u32, x: Record) -> bool {
    if left == 0 {
        return false;
    }
    match x {
        Record::Request {
            code,
            upper: _,
            lower: _,
        } => pays(code),
        _ => false,
    }
}

// The milliseconds of quiet that are left, after a record: a byte from the dispenser starts them again, unless they are over.
pub(crate) fn after(left: u32, x: Record) -> u32 {
    if left == 0 {
        return 0;
    }
    match x {
        Record::DispenserByte(_) => QUIET,
        Record::Tick(ms) => passed(left, ms),
        _ => left,
    }
}

// A tick that the sessions refuse counts for nothing.
fn passed(left: u32, ms: u32) -> u32 {
    if Session::TICK < ms {
        return left;
    }
    if ms < left {
        return left - ms;
    }
    0
}
