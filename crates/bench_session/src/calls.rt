// The calls that a line tells. The first letter of its second word is its kind.
//
//     session starts:
//     session request, room 16: 45h upper 10 lower 0
//     session bytes, room 16: 15 06
//     session ticks, room 16: 1000 times 5
//     session operator clears:
//     session commands refused: 999999
//     session account:
use sheet_session::Call;
use std::io;
use std::io::Write;

// What a line tells.
#[derive(Clone, Copy, PartialEq, Eq)]
pub(crate) enum Kind {
    Starts,
    Request,
    Bytes,
    Ticks,
    OperatorClears,
    CommandsRefused,
    Account,
}

// The calls of a command that is refused: quiet enough for it, its request, and 15h for each hand-over that it may have.
const REFUSED: u64 = 11;

// Prints a line, and says its kind; none for a line that tells no calls.
pub(crate) fn kind_of<W: Write>(out: &mut W, line: &[u8]) -> io::Result<Option<Kind>> {
    if sheet::letter(line, 0) != b's' {
        sheet::print_text(out, line)?;
        return Ok(None);
    }
    sheet::print_whole_line(out, line)?;
    Ok(named(sheet::letter(line, 1)))
}

fn named(letter: u8) -> Option<Kind> {
    match letter {
        b's' => Some(Kind::Starts),
        b'r' => Some(Kind::Request),
        b'b' => Some(Kind::Bytes),
        b't' => Some(Kind::Ticks),
        b'o' => Some(Kind::OperatorClears),
        b'c' => Some(Kind::CommandsRefused),
        b'a' => Some(Kind::Account),
        _ => None,
    }
}

// How many calls a line of some kind tells.
pub(crate) fn count(kind: Kind, line: &[u8]) -> u64 {
    match kind {
        Kind::Bytes => sheet::frame_length(line) as u64,
        Kind::Ticks => sheet::number(line, 6) as u64,
        Kind::CommandsRefused => sheet::number(line, 3) as u64 * REFUSED,
        Kind::Request | Kind::OperatorClears => 1,
        Kind::Starts | Kind::Account => 0,
    }
}

// The call of a line of some kind that has so many before it.
pub(crate) fn nth(kind: Kind, line: &[u8], before: u64) -> Call {
    match kind {
        Kind::Bytes => Call::Byte(sheet::frame_byte(line, before as usize)),
        Kind::Ticks => Call::Tick(sheet::number(line, 4)),
        Kind::Request => Call::Request {
            code: sheet::byte(line, 4),
            upper: sheet::number(line, 6),
            lower: sheet::number(line, 8),
        },
        Kind::CommandsRefused => refused(before % REFUSED),
        Kind::Starts | Kind::OperatorClears | Kind::Account => Call::Clear,
    }
}

// Of a command that is refused.
fn refused(before: u64) -> Call {
    match before {
        0..=5 => Call::Tick(1_000),
        6 => Call::Request {
            code: 0x44,
            upper: 0,
            lower: 0,
        },
        _ => Call::Byte(0x15),
    }
}
