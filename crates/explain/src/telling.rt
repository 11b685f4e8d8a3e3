// A recording, told record by record as its bytes come.
use dispenser_rules::Reply;
use grading_rules::Replaying;
use recording::{Place, Reader, Record};
use spoken::lines::Run;
use spoken::{Live, lines};
use std::io;
use std::io::{Read, Write};
use words::Told;

// The bytes of the record that is begun: no record has more than 16.
#[derive(Clone, Copy)]
struct Begun {
    held: u32,
    bytes: [u8; 16],
}

// What is told so far: the desk, the milliseconds since the start, how many records are yet to be told, and what the line at hand is of.
#[derive(Clone, Copy)]
struct SoFar {
    live: Live,
    ms: u64,
    left: u64,
    run: Run,
}

// A recording as far as it has come.
#[derive(Clone, Copy)]
struct Telling {
    reader: Reader,
    begun: Begun,
    so_far: SoFar,
}

fn none_begun() -> Begun {
    Begun {
        held: 0,
        bytes: [0; 16],
    }
}

fn fresh(most: u64) -> Telling {
    Telling {
        reader: Reader::fresh(),
        begun: none_begun(),
        so_far: SoFar {
            live: Live::fresh(),
            ms: 0,
            left: most,
            run: Run::Nothing,
        },
    }
}

// Why a recording is not told to its end: it could not be read, or what is told could not be written.
#[derive(Clone, Copy)]
pub(crate) enum Untold {
    Unread(io::Error),
    Unwritten(io::Error),
}

impl From<io::Error> for Untold {
    fn from(why: io::Error) -> Untold {
        Untold::Unwritten(why)
    }
}

// Tells the recording that can be read: the records from an offset on, so many at most, and what the whole recording leaves.
pub(crate) fn tell<R: Read, W: Write>(
    input: &mut R,
    out: &mut W,
    piece: &mut [u8],
    from: u64,
    most: u64,
) -> Result<(), Untold> {
    let mut telling = fresh(most);
    // More turns than a recording may have bytes: each but the last reads one at least.
    for _ in 0..Reader::MOST + 1 {
        let n = match input.read(piece) {
            Ok(n) => n,
            Err(why) => {
                cut(out, telling)?;
                return Err(Untold::Unread(why));
            }
        };
        telling = through(out, telling, &piece[..n], from)?;
        if n == 0 || is_bad(telling) {
            break;
        }
    }
    finish(out, telling)?;
    Ok(())
}

// Has a fault shown? Then no further byte counts.
fn is_bad(telling: Telling) -> bool {
    matches!(telling.reader.place, Place::Broken(_))
}

// Every byte of a piece, up to a fault.
fn through<W: Write>(
    out: &mut W,
    telling: Telling,
    piece: &[u8],
    from: u64,
) -> io::Result<Telling> {
    let mut next = telling;
    for &b in piece {
        next = byte(out, next, b, from)?;
        if is_bad(next) {
            break;
        }
    }
    Ok(next)
}

// One byte. It stands behind what was entered and what is begun.
fn byte<W: Write>(out: &mut W, telling: Telling, b: u8, from: u64) -> io::Result<Telling> {
    let reader = telling.reader;
    let begun = telling.begun;
    let so_far = telling.so_far;
    let at = so_far.live.written as u64 + begun.held as u64;
    let step = reader.taken(at, b);
    let next = step.reader;
    let ended = match step.outcome {
        Ok(ended) => ended,
        Err(_) => None,
    };
    Ok(Telling {
        reader: next,
        begun: bytes_after(ended, begun, b),
        so_far: told_after(out, ended, so_far, from)?,
    })
}

// The bytes of the record that is begun, after a byte that ended a record or none.
fn bytes_after(ended: Option<Record>, begun: Begun, b: u8) -> Begun {
    match ended {
        Some(_) => none_begun(),
        None => longer(begun, b),
    }
}

fn longer(begun: Begun, b: u8) -> Begun {
    let held = begun.held as usize;
    let mut next = begun;
    if held < 16 {
        next.bytes[held] = b;
        next.held = begun.held + 1;
    }
    next
}

// And what is told.
fn told_after<W: Write>(
    out: &mut W,
    ended: Option<Record>,
    so_far: SoFar,
    from: u64,
) -> io::Result<SoFar> {
    match ended {
        Some(x) => record(out, so_far, x, from),
        None => Ok(so_far),
    }
}

// One record.
fn record<W: Write>(out: &mut W, so_far: SoFar, x: Record, from: u64) -> io::Result<SoFar> {
    let live = so_far.live;
    let run = so_far.run;
    let offset = live.written as u64;
    let wanted = is_wanted(offset, from, so_far.left);
    let mut line = [0u8; words::ROOM];
    let step = spoken::enter(live, x, &mut line);
    let next = step.live;
    let reply = step.reply;
    let told = step.told;
    Ok(SoFar {
        live: next,
        ms: later(so_far.ms, x, reply),
        left: fewer(so_far.left, wanted),
        run: shown(out, wanted, run, x, told, &line, so_far.ms, offset)?,
    })
}

// Is a record to be told: does it stand far enough, and are some left?
fn is_wanted(offset: u64, from: u64, left: u64) -> bool {
    from <= offset && 0 < left
}

fn fewer(left: u64, wanted: bool) -> u64 {
    if wanted { left.saturating_sub(1) } else { left }
}

// The milliseconds since the start, after a record: a tick passes them, unless it is refused. The sum stays where it would not fit.
fn later(ms: u64, x: Record, reply: Reply) -> u64 {
    match reply {
        Err(_) => ms,
        _ => match x {
            Record::Tick(n) => plus(ms, n),
            _ => ms,
        },
    }
}

fn plus(ms: u64, n: u32) -> u64 {
    if ms < 9_223_372_036_854_775_808 {
        ms + n as u64
    } else {
        ms
    }
}

// A record with what was made of it, if it is to be told.
fn shown<W: Write>(
    out: &mut W,
    wanted: bool,
    run: Run,
    x: Record,
    told: Told,
    line: &[u8],
    ms: u64,
    offset: u64,
) -> io::Result<Run> {
    if !wanted {
        return Ok(run);
    }
    let passing = told.passing;
    let next = lines::begun(x, passing, told.end);
    lines::written(out, run, next, x, ms, offset, line, told.end)
}

// A read has failed: the line at hand ends, and nothing is said of the whole, since its rest is not known.
fn cut<W: Write>(out: &mut W, telling: Telling) -> io::Result<()> {
    lines::end(out, telling.so_far.run)
}

// The recording has ended, or a fault has shown.
fn finish<W: Write>(out: &mut W, telling: Telling) -> io::Result<()> {
    let reader = telling.reader;
    let begun = telling.begun;
    let so_far = telling.so_far;
    let live = so_far.live;
    let desk = live.desk;
    let run = so_far.run;
    let bytes = begun.bytes;
    lines::end(out, run)?;
    end(
        out,
        Replaying {
            desk,
            reader,
            fed: live.written,
        },
        &bytes,
        begun.held as usize,
    )
}

// What the replay finds. No recording leaves one that is not counted, so none of the three tests holds: the reader gets one offset after the other and stops at the limit, and a record that is entered adds
// one to the records, at most one to the declined, and at least one byte. One that is not entered adds nothing.
fn end<W: Write>(out: &mut W, replay: Replaying, bytes: &[u8], held: usize) -> io::Result<()> {
    let reader = replay.reader;
    let desk = replay.desk;
    if Reader::MOST < reader.start || desk.records < desk.declined || replay.fed < desk.records {
        return Ok(());
    }
    spoken::ending(out, grading::ended(replay), bytes, held)
}
