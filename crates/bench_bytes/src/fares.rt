// How a byte fares.
use ccnet_class::Class;
use error_codes::ErrorClass;
use refusals::RANGE;
use std::io;
use std::io::Write;

#[derive(Clone, Copy, PartialEq, Eq)]
pub(crate) enum Fare {
    // 01's number of what is refused.
    Refused(u8),
    Read,
    Listed,
    Unlisted,
    Sent,
    State,
    Busy,
    Rejecting,
    Failing,
    Escrow,
    Stacked,
    Returned,
    Ack,
    Nak,
    Illegal,
    Unknown,
    // What sends and what can be sent differ, or a class carries another byte than the body's last.
    Odd,
}

// What is given, by its kind.
pub(crate) fn of(kind: u8, s: &[u8]) -> Fare {
    match kind {
        b'c' => of_command(s),
        b'a' => of_answer(s),
        b'f' => of_frame(s),
        b'r' => of_request(s),
        _ => of_body(s, last_of(s)),
    }
}

fn of_command(s: &[u8]) -> Fare {
    match dispenser_frame::read_command(s) {
        Ok(_) => Fare::Read,
        Err(why) => Fare::Refused(why.number()),
    }
}

fn of_answer(s: &[u8]) -> Fare {
    match dispenser_frame::read_answer(s) {
        Ok(read) => of_error(read.class),
        Err(why) => Fare::Refused(why.number()),
    }
}

fn of_error(class: ErrorClass) -> Fare {
    match class {
        ErrorClass::Unlisted => Fare::Unlisted,
        _ => Fare::Listed,
    }
}

fn of_frame(s: &[u8]) -> Fare {
    match ccnet_frame::judge(s) {
        Ok(_) => Fare::Read,
        Err(why) => Fare::Refused(why.number()),
    }
}

// Of a code and two counts.
fn of_request(s: &[u8]) -> Fare {
    match s {
        [code, upper, lower, ..] => requested(*code, *upper as u32, *lower as u32),
        _ => Fare::Odd,
    }
}

// Is it written, and can it be sent?
fn requested(code: u8, upper: u32, lower: u32) -> Fare {
    let wanted = if dispenser_frame::is_sendable(code, upper, lower) {
        Fare::Sent
    } else {
        Fare::Refused(RANGE)
    };
    let fare = written(code, upper, lower);
    if fare == wanted { fare } else { Fare::Odd }
}

fn written(code: u8, upper: u32, lower: u32) -> Fare {
    let mut room = sheet::fresh_room::<{ sheet::SHORT }>();
    match dispenser_frame::write_command(code, upper, lower, &mut room) {
        Ok(_) => Fare::Sent,
        Err(why) => Fare::Refused(why.number()),
    }
}

// The last byte; 0 where there is none.
fn last_of(s: &[u8]) -> u8 {
    s.last().copied().unwrap_or(0)
}

// A class carries the body's last byte. No body by itself is a bill table.
fn of_body(s: &[u8], last: u8) -> Fare {
    match ccnet_class::classify(s) {
        Class::Ack => Fare::Ack,
        Class::Nak => Fare::Nak,
        Class::Illegal => Fare::Illegal,
        Class::State(b) if b == last => Fare::State,
        Class::Busy(b) if b == last => Fare::Busy,
        Class::Rejecting(b) if b == last => Fare::Rejecting,
        Class::Failing(b) if b == last => Fare::Failing,
        Class::Escrow(b) if b == last => Fare::Escrow,
        Class::Stacked(b) if b == last => Fare::Stacked,
        Class::Returned(b) if b == last => Fare::Returned,
        Class::Unknown => Fare::Unknown,
        _ => Fare::Odd,
    }
}

// Is the byte taken: read, sent, or part of a listed poll answer?
pub(crate) fn is_taken(fare: Fare) -> bool {
    match fare {
        Fare::Read
        | Fare::Listed
        | Fare::Unlisted
        | Fare::Sent
        | Fare::State
        | Fare::Busy
        | Fare::Rejecting
        | Fare::Failing
        | Fare::Escrow
        | Fare::Stacked
        | Fare::Returned => true,
        Fare::Refused(_) | Fare::Ack | Fare::Nak | Fare::Illegal | Fare::Unknown | Fare::Odd =>
            false,
    }
}

pub(crate) fn print<W: Write>(out: &mut W, fare: Fare) -> io::Result<()> {
    match fare {
        Fare::Refused(number) => sheet::print_form(out, b" refused #;", &[number as u32]),
        Fare::Read => sheet::print_text(out, b" read;"),
        Fare::Listed => sheet::print_text(out, b" read, error listed;"),
        Fare::Unlisted => sheet::print_text(out, b" read, error unlisted;"),
        Fare::Sent => sheet::print_text(out, b" sent;"),
        Fare::State => sheet::print_text(out, b" state;"),
        Fare::Busy => sheet::print_text(out, b" busy;"),
        Fare::Rejecting => sheet::print_text(out, b" rejecting;"),
        Fare::Failing => sheet::print_text(out, b" failing;"),
        Fare::Escrow => sheet::print_text(out, b" escrow;"),
        Fare::Stacked => sheet::print_text(out, b" stacked;"),
        Fare::Returned => sheet::print_text(out, b" returned;"),
        Fare::Ack => sheet::print_text(out, b" ACK;"),
        Fare::Nak => sheet::print_text(out, b" NAK;"),
        Fare::Illegal => sheet::print_text(out, b" illegal command;"),
        Fare::Unknown => sheet::print_text(out, b" unknown;"),
        Fare::Odd => sheet::print_text(out, b" AT ODDS;"),
    }
}
