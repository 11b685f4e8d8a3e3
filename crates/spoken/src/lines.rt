// The lines of a told recording. Records share a line: equal ticks of which nothing is to be told, and bytes that no session kept.
use crate::sentences::{parts, print, say};
use recording::Record;
use std::io;
use std::io::Write;
use text::{Said, byte};
use words::Passing;

// What the line at hand is of. It is written as far as it is known. Four meanings, of which none is a failure: no Option.
#[derive(Clone, Copy)]
pub enum Run {
    // Of nothing: the line has ended.
    Nothing,
    // Ticks of so many milliseconds, and how many.
    Ticks(u32, u32),
    // Bytes of the dispenser, and of the validator, ignored or skipped, and how many.
    Dispenser(Passing, u32),
    Validator(Passing, u32),
}

// So many bytes share a line at most, so that every line can be held.
const BYTES: u32 = 1_000;

// What a line is of that begins with a record of which so many bytes are told.
pub fn begun(x: Record, passing: Option<Passing>, told: usize) -> Run {
    match x {
        Record::Tick(ms) => {
            if told == 0 {
                return Run::Ticks(ms, 1);
            }
            Run::Nothing
        }
        Record::DispenserByte(_) => match passing {
            Some(passing) => Run::Dispenser(passing, 1),
            None => Run::Nothing,
        },
        Record::ValidatorByte(_) => match passing {
            Some(passing) => Run::Validator(passing, 1),
            None => Run::Nothing,
        },
        _ => Run::Nothing,
    }
}

// The line with one record more, if that belongs on it; else nothing, and then it has to end.
fn joined(line: Run, next: Run) -> Run {
    match line {
        Run::Nothing => Run::Nothing,
        Run::Ticks(ms, count) => match next {
            Run::Ticks(again, _) => ticks(ms, count, again),
            _ => Run::Nothing,
        },
        Run::Dispenser(passing, count) => match next {
            Run::Dispenser(_, _) => {
                if count < BYTES {
                    return Run::Dispenser(passing, count + 1);
                }
                Run::Nothing
            }
            _ => Run::Nothing,
        },
        Run::Validator(passing, count) => match next {
            Run::Validator(_, _) => {
                if count < BYTES {
                    return Run::Validator(passing, count + 1);
                }
                Run::Nothing
            }
            _ => Run::Nothing,
        },
    }
}

fn ticks(ms: u32, count: u32, again: u32) -> Run {
    if ms != again {
        return Run::Nothing;
    }
    if count == 4_294_967_295 {
        return Run::Nothing;
    }
    Run::Ticks(ms, count + 1)
}

// A record on the line at hand, or on one of its own, with what was made of it.
pub fn written<W: Write>(
    out: &mut W,
    line: Run,
    next: Run,
    x: Record,
    ms: u64,
    offset: u64,
    made: &[u8],
    n: usize,
) -> io::Result<Run> {
    let longer = joined(line, next);
    match longer {
        Run::Nothing => {
            end(out, line)?;
            begin(out, x, ms, offset)?;
            go_on(out, next, made, n)?;
            Ok(next)
        }
        _ => {
            add(out, x)?;
            Ok(longer)
        }
    }
}

// Where a record stands, and its words.
fn begin<W: Write>(out: &mut W, x: Record, ms: u64, offset: u64) -> io::Result<()> {
    let mut room = [0u8; 522];
    let a = text::write(&mut room, 0, Said::with(Said::PLACE, [ms, offset, 0, 0]));
    let b = byte(&mut room, a, b' ');
    let n = text::write(&mut room, b, spelling::said(x));
    print(out, &room, n)
}

// What was made of it, and the line's end; where others may join it, the line stays as it is.
fn go_on<W: Write>(out: &mut W, run: Run, made: &[u8], n: usize) -> io::Result<()> {
    match run {
        Run::Nothing => {
            parts(out, b" |", made, n)?;
            print(out, b"\n", 1)
        }
        _ => Ok(()),
    }
}

// One record more on the line: of a tick nothing is added, since their number stands at the end.
fn add<W: Write>(out: &mut W, x: Record) -> io::Result<()> {
    match x {
        Record::DispenserByte(b) => say(out, Said::with(Said::FURTHER, [b as u64, 0, 0, 0])),
        Record::ValidatorByte(b) => say(out, Said::with(Said::FURTHER, [b as u64, 0, 0, 0])),
        _ => Ok(()),
    }
}

// The line ends.
pub fn end<W: Write>(out: &mut W, line: Run) -> io::Result<()> {
    match line {
        Run::Nothing => Ok(()),
        Run::Ticks(_, count) => end_ticks(out, count),
        Run::Dispenser(passing, _) => end_bytes(out, passing),
        Run::Validator(passing, _) => end_bytes(out, passing),
    }
}

fn end_ticks<W: Write>(out: &mut W, count: u32) -> io::Result<()> {
    if 1 < count {
        say(out, Said::with(Said::TIMES, [count as u64, 0, 0, 0]))?;
    }
    print(out, b"\n", 1)
}

fn end_bytes<W: Write>(out: &mut W, passing: Passing) -> io::Result<()> {
    let mut room = [0u8; 261];
    let n = text::write(&mut room, 0, words::passed(passing));
    parts(out, b" |", &room, n)?;
    print(out, b"\n", 1)
}
