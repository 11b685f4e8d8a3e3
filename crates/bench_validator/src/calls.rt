// The calls that a line tells. The first letter of its second word is its kind. A request is its code and its data.
//
//     session starts:
//     session request, room 255: 33
//     session bytes, room 255: 02 03 06 00 C2 82
//     session ticks, room 255: 20 times 1
//     session polls unanswered: 999999
//     session kept:
ghost use Rattle.std.specs.Prelude.{◌≤◌, length};

use std::io;
use std::io::Write;

// What a line tells.
#[derive(Clone, Copy, PartialEq, Eq)]
pub(crate) enum Kind {
    Starts,
    Request,
    Bytes,
    Ticks,
    PollsUnanswered,
    Kept,
}

#[derive(Clone, Copy)]
pub(crate) enum Call {
    Request(u8),
    Byte(u8),
    Tick(u32),
}

// The calls of a poll that closes as silent: quiet enough for it, its request, and the wait for its answer.
const UNANSWERED: u64 = 3;

// Prints a line, and says its kind; none for a line that tells no calls.
pub(crate) fn kind_of<W: Write>(out: &mut W, line: &[u8]) -> io::Result<Option<Kind>> {
    if sheet::letter(line, 0) != b's' {
        sheet::print_text(out, line)?;
        return Ok(None);
    }
    sheet::print_whole_line(out, line)?;
    Ok(named(sheet::letter(line, 1)))
}

fn named(letter: u8) -> Option<Kind> {
    match letter {
        b's' => Some(Kind::Starts),
        b'r' => Some(Kind::Request),
        b'b' => Some(Kind::Bytes),
        b't' => Some(Kind::Ticks),
        b'p' => Some(Kind::PollsUnanswered),
        b'k' => Some(Kind::Kept),
        _ => None,
    }
}

// How many calls a line of some kind tells.
pub(crate) fn count(kind: Kind, line: &[u8]) -> u64 {
    match kind {
        Kind::Bytes => sheet::frame_length(line) as u64,
        Kind::Ticks => sheet::number(line, 6) as u64,
        Kind::PollsUnanswered => sheet::number(line, 3) as u64 * UNANSWERED,
        Kind::Request => 1,
        Kind::Starts | Kind::Kept => 0,
    }
}

// The call of a line of some kind that has so many before it.
pub(crate) fn nth(kind: Kind, line: &[u8], before: u64) -> Call {
    match kind {
        Kind::Bytes => Call::Byte(sheet::frame_byte(line, before as usize)),
        Kind::Ticks => Call::Tick(sheet::number(line, 4)),
        Kind::PollsUnanswered => unanswered(before % UNANSWERED),
        Kind::Starts | Kind::Request | Kind::Kept => Call::Request(sheet::frame_byte(line, 0)),
    }
}

// Of a poll that closes as silent.
fn unanswered(before: u64) -> Call {
    match before {
        0 => Call::Tick(20),
        1 => Call::Request(0x33),
        _ => Call::Tick(10),
    }
}

// Puts the data of a line that is a request at the start of the store, and says how many bytes they are.
pub(crate) fn data(kind: Kind, line: &[u8], store: &mut [u8]) -> usize
    ensures { result ≤ length store.old }
{
    if kind == Kind::Request {
        sheet::frame_from(line, 1, store)
    } else {
        0
    }
}
