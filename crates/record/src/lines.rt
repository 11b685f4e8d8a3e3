// The records of a line, written to standard output.
use recording::Record;
use spelling::{Unclear, is_sentence};
use std::io::Write;
use text::{Said, hear};

// Why the text does not go on behind a line: it has ended, or the line is not understood. It ends as well where a write fails: what follows would stand in the recording with a gap before it.
#[derive(Clone, Copy)]
pub(crate) enum Stop {
    Ended,
    Unclear,
}

impl From<Unclear> for Stop {
    fn from(_: Unclear) -> Stop {
        Stop::Unclear
    }
}

// The records of a line. The text ends at the requests, at the report and behind a fault.
pub(crate) fn record(rt: HostRuntime, line: &[u8]) -> Result<(), Stop> {
    if is_sentence(line, Said::REQUESTS) {
        return Err(Stop::Ended);
    }
    if is_sentence(line, Said::REPORT) {
        return Err(Stop::Ended);
    }
    if let Some(bad) = hear(line, 0, Said::BAD) {
        fault(rt, line, bad.end);
        return Err(Stop::Ended);
    }
    records(rt, line)
}

// The bytes of a fault, as they are, from a place on: "bad 22 at 7: 01".
fn fault(rt: HostRuntime, line: &[u8], from: usize) {
    let mut at = from;
    for _ in 0..line.len() {
        let Some(heard) = hear(line, at, Said::BYTE) else {
            return;
        };
        let values = heard.values;
        if !print(rt, &[(values[0] % 256) as u8], 1) {
            return;
        }
        at = heard.end;
    }
}

// Every record of a line: not more than it has bytes.
fn records(rt: HostRuntime, line: &[u8]) -> Result<(), Stop> {
    let mut spelled = spelling::first(line)?;
    for _ in 0..line.len() {
        let Some(said) = spelled else {
            return Ok(());
        };
        repeated(rt, said.record, said.times)?;
        spelled = spelling::next(line, said.record, said.end)?;
    }
    Ok(())
}

// A record, so many times.
fn repeated(rt: HostRuntime, x: Record, times: u32) -> Result<(), Stop> {
    for _ in 0..times {
        written(rt, x)?;
    }
    Ok(())
}

// A record's bytes; a code that is not in its kind's list is none.
fn written(rt: HostRuntime, x: Record) -> Result<(), Stop> {
    let mut room = [0u8; 16];
    match record_writer::write(x, &mut room) {
        Ok(n) => {
            if print(rt, &room, n) {
                return Ok(());
            }
            Err(Stop::Ended)
        }
        Err(_) => Err(Stop::Unclear),
    }
}

// Bytes of the recording. False where they could not be written, which is said.
fn print(rt: HostRuntime, room: &[u8], n: usize) -> bool {
    if n <= room.len() {
        if let Err(why) = Write::write_all(&mut rt.stdout(), &room[0..n]) {
            files::fail(&mut rt.stderr(), b"standard output", why);
            return false;
        }
    }
    true
}
