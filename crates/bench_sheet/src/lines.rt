// What becomes of a line, whichever part it tries. A line to write gives the room to lend and then the values, a line to read a label and
// then a frame in hex; and lines that count:
//
//     write command, room 24: 45h upper 10 lower 0
//     read command, five bytes: 04 50 02 44 03
//     count bytes of the answer to 44h:
//     count listed error bytes:
//
// A part that joins the sheet adds a kind here, and a module that puts what a line gives and says what its reader found.
use crate::{answer_lines, ccnet_lines, command_lines, numbers_lines};
use refusals::Put;
use std::io;
use std::io::Write;

// What is tried: the first letter of the line's second word, as a capital where it is the validator's.
pub(crate) fn kind(verb: u8, line: &[u8]) -> u8 {
    let letter = sheet::letter(line, 1);
    if verb == b'v' {
        letter % 32 + 64
    } else {
        letter
    }
}

// Whether a line writes, reads or counts, by the first letter of that word; the validator reads frames and says what a body is.
pub(crate) fn tries(verb: u8, kind: u8) -> u8 {
    if verb != b'v' {
        return verb;
    }
    match kind {
        b'R' | b'S' => b'r',
        _ => b'w',
    }
}

// Writes the values to a room of the size given. What was put is read back, but for decimal text, which is for people.
pub(crate) fn write<W: Write>(out: &mut W, kind: u8, line: &[u8]) -> io::Result<()> {
    sheet::print_line(out, line)?;
    let mut room = sheet::fresh_room::<{ sheet::LONG }>();
    write_in(out, kind, line, &mut room)
}

fn write_in<W: Write>(out: &mut W, kind: u8, line: &[u8], room: &mut [u8]) -> io::Result<()> {
    let end = sheet::size(line, room.len());
    let answered = put(kind, line, &mut room[0..end]);
    let used = sheet::print_put(out, answered, room)?;
    if used == 0 {
        return Ok(());
    }
    if kind != b'd' {
        sheet::print_text(out, b"   ")?;
        found(out, kind, &room[0..used])?;
    }
    Ok(())
}

fn put(kind: u8, line: &[u8], room: &mut [u8]) -> Put {
    match kind {
        b'c' => command_lines::put(line, room),
        b'a' => dispenser_frame::write_answer(answer_lines::given(line), room),
        0..b'a' => ccnet_lines::put(kind, line, room),
        _ => numbers_lines::put(kind, sheet::number(line, 4), room),
    }
}

// Reads the frame that the line gives.
pub(crate) fn read<W: Write>(out: &mut W, kind: u8, line: &[u8]) -> io::Result<()> {
    sheet::print_line(out, line)?;
    sheet::print_text(out, b" ->")?;
    let mut store = [0u8; 300];
    let n = sheet::frame(line, &mut store);
    found(out, kind, &store[0..n])
}

fn found<W: Write>(out: &mut W, kind: u8, s: &[u8]) -> io::Result<()> {
    match kind {
        b'c' => command_lines::found(out, s),
        b'a' => answer_lines::found(out, s),
        0..b'a' => ccnet_lines::found(out, kind, s),
        _ => numbers_lines::found(out, kind, s),
    }
}

// Counts what the line's second word names.
pub(crate) fn count<W: Write>(out: &mut W, kind: u8, line: &[u8]) -> io::Result<()> {
    sheet::print_line(out, line)?;
    sheet::print_text(out, b" ")?;
    let n = if kind == b'b' {
        dispenser_frame::answer_length(sheet::byte(line, 6))
    } else {
        answer_lines::listed_bytes()
    };
    sheet::print_number(out, n)?;
    sheet::print_text(out, b"\n")
}
