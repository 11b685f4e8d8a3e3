// The room that is lent to a plain writer, of which it is given so many bytes from the start. Each holds the same byte at first, so
// that it shows whether a call left it as it was.
ghost use Rattle.std.specs.Prelude.{◌≡◌, ◌≤◌, length, IfOk};

use crate::print;
use refusals::Put;
use std::io;
use std::io::Write;

const FILL: u8 = 0xA5;

// More than the longest frame of the dispenser's, an answer of 21 bytes.
pub const SHORT: usize = 24;

// More than the longest CCNET frame, of 255 bytes.
pub const LONG: usize = 300;

// A room of N bytes.
pub fn fresh_room<const N: usize>() -> [u8; N]
    ensures { N ≡ length result }
{
    [FILL; N]
}

// n, but at most the length of the room.
pub fn at_most(n: usize, room: &[u8]) -> usize
    ensures upper_bound { result ≤ n }
    ensures upper_bound_2 { result ≤ length room.now }
{
    n.min(room.len())
}

// What a plain writer answered, the bytes that it put, and whether every other byte of the room is what it was. Says how many bytes it put.
pub fn print_put<W: Write>(out: &mut W, put: Put, room: &[u8]) -> io::Result<usize>
    ensures { IfOk result (λ n. n ≤ length room.now) }
{
    match put {
        Ok(n) => print_laid(out, n, room),
        Err(why) => print_refused(out, why.number(), room),
    }
}

fn print_laid<W: Write>(out: &mut W, n: usize, room: &[u8]) -> io::Result<usize>
    ensures { IfOk result (λ n. n ≤ length room.now) }
{
    print::print_text(out, b" -> length ")?;
    print::print_number(out, n)?;
    print::print_text(out, b":")?;
    let end = at_most(n, room);
    print::print_bytes(out, &room[0..end])?;
    print::print_text(out, b", rest ")?;
    print_kept(out, room, end)?;
    Ok(end)
}

// What a call refused, by 01's number, and whether it left the room as it was.
pub fn print_refused<W: Write>(out: &mut W, number: u8, room: &[u8]) -> io::Result<usize>
    ensures { IfOk result (λ n. n ≤ length room.now) }
{
    print::print_form(out, b" -> refused #, room ", &[number as u32])?;
    print_kept(out, room, 0)?;
    Ok(0)
}

// What a session's call that was done put, if anything, in a line of its own.
pub fn print_done<W: Write>(out: &mut W, put: usize, room: &[u8]) -> io::Result<()> {
    if 0 < put {
        print::print_text(out, b"   ")?;
        print_laid(out, put, room)?;
    }
    Ok(())
}

// Why a session's call was not done, in a line of its own.
pub fn print_not_done<W: Write>(out: &mut W, number: u8, room: &[u8]) -> io::Result<()> {
    print::print_text(out, b"   ")?;
    print_refused(out, number, room)?;
    Ok(())
}

fn print_kept<W: Write>(out: &mut W, room: &[u8], from: usize) -> io::Result<()> {
    if kept(room, from) {
        print::print_text(out, b"kept\n")
    } else {
        print::print_text(out, b"CHANGED\n")
    }
}

// Is every byte from a place on what it was?
fn kept(room: &[u8], from: usize) -> bool {
    room[from.min(room.len())..].iter().all(|&b| b == FILL)
}
