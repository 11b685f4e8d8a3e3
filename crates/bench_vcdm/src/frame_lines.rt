// Lines about frames.
//
//     write command, room 40: 52h counts 1 2 3 4 serial 21h
//     write answer, room 40: 44h error 30h
//     read command, the first: 04 30 02 44 03 71
//     read answer, the first: 01 30 02 44 30 03 44
//
// What was put is read back below it.
use crate::{show, words};
use refusals::Put;
use std::io;
use std::io::Write;

// A line by its verb.
pub(crate) fn run<W: Write>(out: &mut W, line: &[u8]) -> io::Result<()> {
    match sheet::letter(line, 0) {
        b'w' => write(out, line, &mut sheet::fresh_room::<{ words::ROOM }>()),
        b'r' => read(out, line),
        _ => sheet::print_text(out, line),
    }
}

// Writes what the line gives to a room of the size that it gives.
fn write<W: Write>(out: &mut W, line: &[u8], lent: &mut [u8]) -> io::Result<()> {
    sheet::print_line(out, line)?;
    let end = sheet::size(line, lent.len());
    let put = put_frame(line, &mut lent[0..end]);
    let n = sheet::print_put(out, put, lent)?;
    if 0 < n {
        sheet::print_text(out, b"   ")?;
        found(out, line, &lent[0..n])?;
    }
    Ok(())
}

fn put_frame(line: &[u8], lent: &mut [u8]) -> Put {
    if sheet::letter(line, 1) == b'c' {
        let counts = words::counts(line, 6);
        return vcdm_frame::write_command(sheet::byte(line, 4), counts, sheet::byte(line, 11), lent);
    }
    vcdm_frame::write_answer(words::answer(line), lent)
}

// Reads the frame behind the line's colon.
fn read<W: Write>(out: &mut W, line: &[u8]) -> io::Result<()> {
    sheet::print_line(out, line)?;
    sheet::print_text(out, b" ->")?;
    let mut store = [0u8; 64];
    let n = sheet::frame(line, &mut store);
    found(out, line, &store[0..n])
}

fn found<W: Write>(out: &mut W, line: &[u8], s: &[u8]) -> io::Result<()> {
    if sheet::letter(line, 1) == b'c' {
        found_command(out, s)
    } else {
        found_answer(out, s)
    }
}

fn found_command<W: Write>(out: &mut W, s: &[u8]) -> io::Result<()> {
    match vcdm_frame::read_command(s) {
        Ok(command) => show::command(out, command),
        Err(why) => sheet::print_fault(out, why.number()),
    }
}

fn found_answer<W: Write>(out: &mut W, s: &[u8]) -> io::Result<()> {
    match vcdm_frame::read_answer(s) {
        Ok(answer) => {
            sheet::print_text(out, b" reads as")?;
            show::answer(out, answer)
        }
        Err(why) => sheet::print_fault(out, why.number()),
    }
}
