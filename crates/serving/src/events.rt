// Events, one after the other.
use crate::{guard, lines};
use dispenser_books::pays;
use filter::NoRecord;
use grading_rules::Desk;
use live_rules::{Entered, NotEntered};
use recording::{Reader, Record};
use refusals::Done;
use std::fs::File;
use std::io;
use std::io::Write;

// A desk at work: the bytes of its recording, what is left of the quiet of a fresh start, and whether it can go on.
#[derive(Clone, Copy)]
struct Work {
    desk: Desk,
    written: u32,
    quiet: u32,
    going: bool,
}

// Serves a desk whose recording has so many bytes, until standard input ends, or it cannot go on. No payout is taken before so many milliseconds of quiet.
pub fn run(rt: HostRuntime, file: &mut File, desk: Desk, written: u32, quiet: u32) {
    let work = Work {
        desk,
        written,
        quiet,
        going: true,
    };
    each(rt, file, work);
}

// Every event.
fn each(rt: HostRuntime, file: &mut File, work: Work) {
    let mut now = work;
    for _ in 0..u64::MAX {
        let x = match filter::next(&mut rt.stdin()) {
            Ok(Some(x)) => x,
            Ok(None) => {
                return;
            }
            Err(why) => {
                failed(rt, why);
                return;
            }
        };
        let next = taken(rt, file, now, x);
        now = next;
        if !now.going {
            lines::failed(rt);
            return;
        }
        lines::done(rt);
    }
}

// The input is bad or cannot be read.
fn failed(rt: HostRuntime, why: NoRecord) {
    match why {
        NoRecord::Bad(why) => {
            let number = why.number();
            let _ = eprintln!(rt; "standard input: bad {number}");
            lines::failed(rt);
        }
        NoRecord::Failed(why) => {
            files::fail(&mut rt.stderr(), b"standard input", why);
            lines::failed(rt);
        }
    }
}

// An event: an order that comes too early is not written down.
fn taken(rt: HostRuntime, file: &mut File, work: Work, x: Record) -> Work {
    if guard::holds(work.quiet, x) {
        lines::held(rt, work.quiet);
        return work;
    }
    let desk = work.desk;
    entered(rt, file, desk, work.written, guard::after(work.quiet, x), x)
}

// A record is entered, at a desk whose recording has so many bytes.
fn entered(
    rt: HostRuntime,
    file: &mut File,
    desk: Desk,
    written: u32,
    quiet: u32,
    x: Record,
) -> Work {
    let mut out = [0u8; 16];
    let mut room = [0u8; 16];
    let mut room255 = [0u8; 255];
    let left = live::enter(desk, written, x, &mut out, &mut room, &mut room255);
    let put = told(rt, file, left, written, &out, &room, &room255);
    let lived = left.lived;
    let next = lived.desk;
    if 0 < put {
        lines::said(rt, desk, x, lived, &room, &room255);
    }
    Work {
        desk: next,
        written: longer(written, put),
        quiet,
        going: 0 < put,
    }
}

// The size of the recording, with so many bytes more. They fit: else the record would not have been entered.
fn longer(written: u32, put: usize) -> u32 {
    let left = (Reader::MOST - written as u64) as usize;
    if left < put {
        return written;
    }
    written + put as u32
}

// Writes down what was entered, then says what is to be sent. How many bytes were written: none where there are none, or that fails.
fn told(
    rt: HostRuntime,
    file: &mut File,
    entered: Entered,
    written: u32,
    out: &[u8; 16],
    room: &[u8; 16],
    room255: &[u8; 255],
) -> usize {
    let entry = entered.entry;
    let lived = entered.lived;
    let payer = lived.dispenser;
    let taker = lived.validator;
    let paying = is_paying(payer, room);
    let put = kept(rt, file, entry, out, written, paying);
    if 0 < put {
        lines::to_dispenser(rt, payer, paying, room);
        lines::to_validator(rt, taker, room255);
    }
    put
}

// Is a frame that pays to be sent? It has more bytes than one, of which the fourth is its code.
fn is_paying(reply: dispenser_rules::Reply, room: &[u8; 16]) -> bool {
    match reply {
        Err(_) => false,
        Ok(Done { put, .. }) => {
            if 1 < put {
                return pays(room[3]);
            }
            false
        }
    }
}

// Writes the record's bytes, and says how many: none where there are none, or that fails.
fn kept(
    rt: HostRuntime,
    file: &mut File,
    entry: Result<usize, NotEntered>,
    out: &[u8; 16],
    written: u32,
    paying: bool,
) -> usize {
    match entry {
        Ok(n) => {
            if write_down(rt, file, out, n, written, paying) {
                return n;
            }
            0
        }
        Err(NotEntered::Refused(_)) => {
            let _ = eprintln!(rt; "a record that no recording can hold");
            0
        }
        Err(NotEntered::Full) => {
            let _ = eprintln!(rt; "the recording is full: begin a new one");
            0
        }
    }
}

// Writes the record, onto the disk before a frame that pays. Where that fails, the file is cut back to the records before, and the answer is false.
fn write_down(
    rt: HostRuntime,
    file: &mut File,
    out: &[u8; 16],
    n: usize,
    written: u32,
    paying: bool,
) -> bool {
    let end = sheet::at_most(n, out);
    match kept_safe(file, &out[0..end], paying) {
        Ok(()) => true,
        Err(why) => {
            files::fail(&mut rt.stderr(), b"the recording", why);
            let _ = file.set_len(written as u64);
            false
        }
    }
}

// Onto the disk, where the record pays.
fn kept_safe(file: &mut File, bytes: &[u8], paying: bool) -> io::Result<()> {
    file.write_all(bytes)?;
    if paying {
        file.sync_data()?;
    }
    Ok(())
}
