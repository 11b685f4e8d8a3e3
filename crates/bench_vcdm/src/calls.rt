// The calls that a line tells. The first letter of its second word is its kind.
//
//     session starts:
//     session request, room 16: 52h counts 1 2 3 4
//     session bytes, room 16: 15 06
//     session ticks, room 16: 1000 times 5
//     session dispenses refused: 94
//     session account:
use crate::{frame_lines, words};
use std::io;
use std::io::Write;
use vcdm_frame_rules::Counts;

#[derive(Clone, Copy)]
pub(crate) enum Call {
    Request { code: u8, counts: Counts },
    Byte(u8),
    Tick(u32),
}

// What a line tells.
#[derive(Clone, Copy, PartialEq, Eq)]
pub(crate) enum Kind {
    Starts,
    Request,
    Bytes,
    Ticks,
    DispensesRefused,
    Account,
}

// The calls of a dispense that is refused: quiet enough for it, its request, and 15h for each hand-over that it may have.
const REFUSED: u64 = 11;

// Prints a line, and says its kind; none for a line that tells no calls.
pub(crate) fn kind_of<W: Write>(out: &mut W, line: &[u8]) -> io::Result<Option<Kind>> {
    if sheet::letter(line, 0) != b's' {
        frame_lines::run(out, line)?;
        return Ok(None);
    }
    sheet::print_whole_line(out, line)?;
    Ok(named(sheet::letter(line, 1)))
}

fn named(letter: u8) -> Option<Kind> {
    match letter {
        b's' => Some(Kind::Starts),
        b'r' => Some(Kind::Request),
        b'b' => Some(Kind::Bytes),
        b't' => Some(Kind::Ticks),
        b'd' => Some(Kind::DispensesRefused),
        b'a' => Some(Kind::Account),
        _ => None,
    }
}

// How many calls a line of some kind tells.
pub(crate) fn count(kind: Kind, line: &[u8]) -> u64 {
    match kind {
        Kind::Bytes => sheet::frame_length(line) as u64,
        Kind::Ticks => sheet::number(line, 6) as u64,
        Kind::DispensesRefused => sheet::number(line, 3) as u64 * REFUSED,
        Kind::Request => 1,
        Kind::Starts | Kind::Account => 0,
    }
}

// The call of a line of some kind that has so many before it.
pub(crate) fn nth(kind: Kind, line: &[u8], before: u64) -> Call {
    match kind {
        Kind::Bytes => Call::Byte(sheet::frame_byte(line, before as usize)),
        Kind::Ticks => Call::Tick(sheet::number(line, 4)),
        Kind::DispensesRefused => refused(before % REFUSED),
        Kind::Starts | Kind::Request | Kind::Account => Call::Request {
            code: sheet::byte(line, 4),
            counts: words::counts(line, 6),
        },
    }
}

// Of a dispense of one note that is refused.
fn refused(before: u64) -> Call {
    match before {
        0..=5 => Call::Tick(1_000),
        6 => Call::Request {
            code: 0x52,
            counts: Counts {
                top: 0,
                second: 0,
                third: 0,
                bottom: 1,
            },
        },
        _ => Call::Byte(0x15),
    }
}
