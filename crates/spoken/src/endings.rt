// What stands at the end of a told recording: a fault, or the requests that are kept; and the report.
use crate::sentences::{print, say};
use dispenser_rules::Requests;
use grading_rules::Findings;
use recording::Fault;
use std::io;
use std::io::Write;
use text::Said;

// All of it, with the bytes in which a fault shows: so many of those lent.
pub fn ending<W: Write>(out: &mut W, found: Findings, bytes: &[u8], held: usize) -> io::Result<()> {
    let account = found.account;
    let all = account.requests;
    match found.ending {
        Ok(()) => {
            heading(out, Said::REQUESTS)?;
            requests(out, all)?;
        }
        Err(bad) => fault(out, bad.fault, bad.at, bytes, held)?,
    }
    heading(out, Said::REPORT)?;
    report(out, found)
}

// A line of one sentence, behind an empty one.
fn heading<W: Write>(out: &mut W, sentence: usize) -> io::Result<()> {
    print(out, b"\n", 1)?;
    say(out, Said::alone(sentence))?;
    print(out, b"\n", 1)
}

fn fault<W: Write>(out: &mut W, why: Fault, at: u32, bytes: &[u8], held: usize) -> io::Result<()> {
    let mut room = [0u8; 48];
    say(
        out,
        Said::with(Said::BAD, [why.number() as u64, at as u64, 0, 0]),
    )?;
    if held <= bytes.len() {
        let n = text::bytes(&mut room, 0, &bytes[0..held]);
        print(out, &room, n)?;
    }
    print(out, b"\n", 1)
}

// The requests that are kept, oldest first.
pub fn requests<W: Write>(out: &mut W, all: Requests) -> io::Result<()> {
    let mut room = [0u8; words::REQUESTS_ROOM];
    let n = words::requests(&mut room, all);
    print(out, &room, n)
}

// The report of what was found.
pub fn report<W: Write>(out: &mut W, found: Findings) -> io::Result<()> {
    let mut room = [0u8; report::LONGEST];
    match report::write_report(found, &mut room) {
        Ok(n) => print(out, &room, n),
        Err(_) => Ok(()),
    }
}
