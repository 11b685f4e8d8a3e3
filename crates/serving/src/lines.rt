// The lines that are said of an event, on standard output. A write that fails ends nothing here: whoever reads has gone, and the input ends.
use grading_rules::Desk;
use live_rules::Lived;
use recording::Record;
use refusals::{Declined, Done};
use sheet::{print_form, print_text};
use std::io;
use std::io::Write;

pub(crate) fn done(rt: HostRuntime) {
    let _ = print_text(&mut rt.stdout(), b"done\n");
}

pub fn failed(rt: HostRuntime) {
    let _ = print_text(&mut rt.stdout(), b"failed\n");
}

// An order that pays, and comes too early.
pub(crate) fn held(rt: HostRuntime, left: u32) {
    let _ = print_form(
        &mut rt.stdout(),
        b"refused: no payout before 95,200 ms of quiet after a fresh start; # ms are left\n",
        &[left],
    );
}

// What the dispenser session answered: the bytes to send.
pub(crate) fn to_dispenser(
    rt: HostRuntime,
    reply: dispenser_rules::Reply,
    paying: bool,
    room: &[u8; 16],
) {
    match reply {
        Err(why) => declined(rt, why),
        Ok(Done { put, .. }) => {
            if paying {
                let _ = filter::send(&mut rt.stdout(), b"send dispenser paying", put, room);
                return;
            }
            let _ = filter::send(&mut rt.stdout(), b"send dispenser", put, room);
        }
    }
}

pub(crate) fn to_validator(rt: HostRuntime, reply: validator_rules::Reply, room: &[u8; 255]) {
    match reply {
        Err(why) => declined(rt, why),
        Ok(Done { put, .. }) => {
            let _ = filter::send(&mut rt.stdout(), b"send validator", put, room);
        }
    }
}

// Number 5: the recording has taken all the commands that it can.
fn declined(rt: HostRuntime, why: Declined) {
    match why {
        Declined::Spent => {
            let _ = print_text(&mut rt.stdout(), b"renew\n");
        }
        _ => {}
    }
}

// What the sessions did with a record, in the words of `explain`: sent, refused, closed, booked, waited. Where they did nothing, nothing is said.
pub(crate) fn said(
    rt: HostRuntime,
    was: Desk,
    x: Record,
    lived: Lived,
    room: &[u8; 16],
    room255: &[u8; 255],
) {
    let is = lived.desk;
    let payer = lived.dispenser;
    let taker = lived.validator;
    let mut line = [0u8; words::ROOM];
    let told = words::made(
        &mut line,
        x,
        words::look(was),
        words::look(is),
        payer,
        taker,
        room,
        room255,
    );
    let end = sheet::at_most(told.deeds, &line);
    if 0 < end {
        let _ = line_of(&mut rt.stdout(), x, &line[1..end]);
    }
}

// A record, and what was done with it.
fn line_of<W: Write>(out: &mut W, x: Record, deeds: &[u8]) -> io::Result<()> {
    print_text(out, b"said ")?;
    record(out, x)?;
    print_text(out, b" |")?;
    print_text(out, deeds)?;
    print_text(out, b"\n")
}

// The words of a record.
fn record<W: Write>(out: &mut W, x: Record) -> io::Result<()> {
    let mut room = [0u8; 261];
    let n = text::write(&mut room, 0, spelling::said(x));
    let end = sheet::at_most(n, &room);
    print_text(out, &room[0..end])
}
