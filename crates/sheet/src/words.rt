// What a line of a sheet gives: its words, of which some are numbers, or a frame in hex behind its colon. A word is known by how many stand
// before it. A line that is not well made gives some number or other, which the run then shows.
ghost use Rattle.std.specs.Prelude.{◌≤◌, ◌<◌, length};

use crate::{print, room};
use std::io;
use std::io::Write;

// The place past the first b at or after a place; the end where there is none.
pub fn past(s: &[u8], from: usize, b: u8) -> usize
    requires { from ≤ length s.now }
    ensures lower_bound { from ≤ result }
    ensures upper_bound { result ≤ length s.now }
    ensures lower_bound_2 { from < length s.now → from < result }
{
    match s[from..].iter().position(|&x| x == b) {
        Some(k) => from + k + 1,
        None => s.len(),
    }
}

// The place past the line that stands at a place.
pub fn line_end(all: &[u8], at: usize) -> usize
    ensures upper_bound { result ≤ length all.now }
    ensures lower_bound { at < length all.now → at < result }
{
    if at < all.len() {
        past(all, at, b'\n')
    } else {
        all.len()
    }
}

// Where the part stands that has so many before it, each ended by b.
pub fn part(s: &[u8], before: usize, b: u8) -> usize
    ensures { result ≤ length s.now }
{
    let mut at = 0;
    for _ in 0..before {
        at = past(s, at, b);
    }
    at
}

// Where the word stands that has so many words before it.
fn word(line: &[u8], before: usize) -> usize
    ensures { result ≤ length line.now }
{
    part(line, before, b' ')
}

// The first letter of a word; 0 where the line has no such word.
pub fn letter(line: &[u8], before: usize) -> u8 {
    line.get(word(line, before)).copied().unwrap_or(0)
}

// The byte that a word says in hex.
pub fn byte(line: &[u8], before: usize) -> u8 {
    byte_at(line, word(line, before))
}

// The byte that is said at a place.
pub fn byte_at(line: &[u8], at: usize) -> u8 {
    if line.len() < 2 || line.len() - 2 < at {
        return 0;
    }
    byte_of(line[at], line[at + 1])
}

// The number that a word says in decimal.
pub fn number(line: &[u8], before: usize) -> u32 {
    number_at(line, word(line, before))
}

// The number that is said at a place.
pub fn number_at(line: &[u8], at: usize) -> u32 {
    let mut n = 0;
    for &b in &line[at.min(line.len())..] {
        if !b.is_ascii_digit() {
            break;
        }
        n = more(n, b - b'0');
    }
    (n % 4_294_967_296) as u32
}

// How many bytes of a room of so many a line lends: as many as it says, but at most all; all where it says none.
pub fn size(line: &[u8], most: usize) -> usize
    ensures { result ≤ most }
{
    if is_room(line, word(line, 2)) {
        most.min(number(line, 3) as usize)
    } else {
        most
    }
}

// Does the word at a place begin as room does?
fn is_room(line: &[u8], at: usize) -> bool {
    at <= line.len() && line[at..].starts_with(b"ro")
}

// The number that digits say with one more of them.
fn more(n: u64, digit: u8) -> u64 {
    n % 4_294_967_296 * 10 + digit as u64
}

// The line, without its end.
pub fn print_line<W: Write>(out: &mut W, line: &[u8]) -> io::Result<()> {
    print::print_text(out, b"  ")?;
    let end = past(line, 0, b'\n');
    if 0 < end {
        print::print_text(out, &line[0..end - 1])?;
    }
    Ok(())
}

// One of several forms, each ended by a bar: the one that has so many before it.
pub fn print_one<W: Write>(
    out: &mut W,
    forms: &[u8],
    before: usize,
    values: &[u32],
) -> io::Result<()> {
    let at = part(forms, before, b'|');
    let end = past(forms, at, b'|');
    if at < end {
        print::print_form(out, &forms[at..end - 1], values)?;
    }
    Ok(())
}

// How many bytes the frame has that stands behind a line's colon.
pub fn frame_length(line: &[u8]) -> usize {
    let colon = past(line, 0, b':');
    (line.len() - colon) / 3
}

// The byte of that frame that has so many before it; 0 where there is none.
pub fn frame_byte(line: &[u8], before: usize) -> u8 {
    let colon = past(line, 0, b':');
    let left = line.len() - colon;
    if left / 3 <= before {
        return 0;
    }
    let at = colon + 3 * before;
    byte_of(line[at + 1], line[at + 2])
}

// Puts that frame at the start of the store, as much as it holds, and says how many bytes that is.
pub fn frame(line: &[u8], store: &mut [u8]) -> usize
    ensures { result ≤ length store.old }
{
    frame_from(line, 0, store)
}

// The same of what the frame has from a byte on.
pub fn frame_from(line: &[u8], first: usize, store: &mut [u8]) -> usize
    ensures { result ≤ length store.old }
{
    let all = frame_length(line);
    if all <= first {
        return 0;
    }
    let n = room::at_most(all - first, store);
    for (k, b) in store[..n].iter_mut().enumerate() {
        *b = frame_byte(line, first + k);
    }
    n
}

// The byte that two hex digits say.
fn byte_of(high: u8, low: u8) -> u8 {
    digit_of(high) * 16 + digit_of(low)
}

// The value of a hex digit, in capitals.
fn digit_of(b: u8) -> u8
    ensures { result < 16 }
{
    if b < 0x40 { b % 16 } else { (b % 16 + 9) % 16 }
}
