// A text, read byte by byte and taken line by line.
use crate::lines;
use crate::lines::Stop;
use std::io;
use std::io::Read;

// No line is longer, without what stands behind | or #.
pub(crate) const LINE: usize = 8_192;

// How many bytes of the line are held, whether the rest of it is passed over, and how many lines stand before it.
#[derive(Clone, Copy)]
struct Reading {
    held: usize,
    passing: bool,
    before: u64,
}

fn fresh() -> Reading {
    Reading {
        held: 0,
        passing: false,
        before: 0,
    }
}

// Reads into a lent buffer until the text ends, or a line says so. Answers whether it could be read: where a read fails, the line at hand may be cut, and does not count.
pub(crate) fn read<R: Read>(
    rt: HostRuntime,
    input: &mut R,
    piece: &mut [u8],
    line: &mut [u8],
) -> io::Result<()> {
    let mut reading = fresh();
    for _ in 0..u64::MAX {
        let n = input.read(piece)?;
        if n == 0 {
            ended(rt, reading, line);
            return Ok(());
        }
        let Some(next) = through(rt, reading, &piece[0..n], line) else {
            return Ok(());
        };
        reading = next;
    }
    Ok(())
}

// Every byte of a piece; None where the text does not go on.
fn through(rt: HostRuntime, reading: Reading, piece: &[u8], line: &mut [u8]) -> Option<Reading> {
    let mut next = reading;
    for b in piece {
        next = byte(rt, next, *b, line)?;
    }
    Some(next)
}

// One byte: of the line, or behind its words, or its end.
fn byte(rt: HostRuntime, reading: Reading, b: u8, line: &mut [u8]) -> Option<Reading> {
    if b == b'\n' {
        return taken(rt, reading, line);
    }
    if reading.passing {
        return Some(reading);
    }
    if b == b'|' {
        return Some(passed_over(reading));
    }
    if b == b'#' {
        return Some(passed_over(reading));
    }
    held(rt, reading, b, line)
}

// The rest of the line does not count.
fn passed_over(reading: Reading) -> Reading {
    Reading {
        held: reading.held,
        passing: true,
        before: reading.before,
    }
}

// One byte more of the line, if it can be held.
fn held(rt: HostRuntime, reading: Reading, b: u8, line: &mut [u8]) -> Option<Reading> {
    let at = reading.held;
    if at < line.len() {
        line[at] = b;
        return Some(Reading {
            held: at + 1,
            passing: false,
            before: reading.before,
        });
    }
    unclear(rt, reading.before);
    None
}

// The line that was read.
fn taken(rt: HostRuntime, reading: Reading, line: &mut [u8]) -> Option<Reading> {
    let n = reading.held;
    if line.len() < n {
        unclear(rt, reading.before);
        return None;
    }
    match lines::record(rt, &line[0..n]) {
        Ok(()) => Some(Reading {
            held: 0,
            passing: false,
            before: one_more(reading.before),
        }),
        Err(Stop::Ended) => None,
        Err(Stop::Unclear) => {
            unclear(rt, reading.before);
            None
        }
    }
}

fn one_more(n: u64) -> u64 {
    if n < 18_446_744_073_709_551_614 {
        return n + 1;
    }
    n
}

// A line that is not understood, by its number: so many stand before it.
fn unclear(rt: HostRuntime, before: u64) {
    let number = one_more(before);
    let _ = eprintln!(rt; "line {number} is not understood");
}

// The text ends: its last line may lack its end.
fn ended(rt: HostRuntime, reading: Reading, line: &mut [u8]) {
    if 0 < reading.held {
        taken(rt, reading, line);
    }
}
