// Enables bills before a recording begins, a filter: command 34h, which a recording cannot hold, by a validator session of its own which is then dropped.
//
//     enable_bills FF FF FF 00 00 00     the six data bytes of 34h
//
// Events are records on standard input, as those of `host`; milliseconds and bytes from the validator are used. Each is answered by the bytes to send, if any, and done; the last by what came of it.
#![tactic(auto)]

use recording::Record;
use refusals::Done;
use sheet::print_text;
use validator_rules::{Closing, Outcome, Reply, Session};

// ENABLE BILL TYPES (003).
const ENABLE: u8 = 0x34;

// The session, whether the command was sent, and whether it has closed.
#[derive(Clone, Copy)]
struct Enabling {
    session: Session,
    sent: bool,
    closed: bool,
}

fn main(rt: HostRuntime) {
    let types = [
        argument(rt, 1),
        argument(rt, 2),
        argument(rt, 3),
        argument(rt, 4),
        argument(rt, 5),
        argument(rt, 6),
    ];
    run(rt, &types);
}

// A byte in two hex digits; 0 where there is no such argument.
fn argument(rt: HostRuntime, i: usize) -> u8 {
    let mut word = [0u8; 8];
    match files::arg(&rt, i, &mut word) {
        Ok(n) => sheet::byte(&word[..n], 0),
        Err(_) => 0,
    }
}

fn run(rt: HostRuntime, types: &[u8; 6]) {
    let mut now = Enabling {
        session: Session::fresh(),
        sent: false,
        closed: false,
    };
    for _ in 0..u64::MAX {
        let Ok(Some(x)) = filter::next(&mut rt.stdin()) else {
            return;
        };
        let next = event(rt, now, x, types);
        now = next;
        if now.closed {
            return;
        }
        say(rt, b"done\n");
    }
}

// A line. A write that fails ends nothing here: whoever reads has gone, and the input ends.
fn say(rt: HostRuntime, line: &[u8]) {
    let _ = print_text(&mut rt.stdout(), line);
}

fn event(rt: HostRuntime, was: Enabling, x: Record, types: &[u8; 6]) -> Enabling {
    let mut room = [0u8; 255];
    let session = was.session;
    match x {
        Record::Tick(ms) => {
            let outcome = validator::tick(session, ms, &mut room);
            let after = left(rt, was.sent, outcome, &room);
            if after.sent {
                return after;
            }
            asked(rt, after, types)
        }
        Record::ValidatorByte(b) => {
            let outcome = validator::byte(session, b, &mut room);
            left(rt, was.sent, outcome, &room)
        }
        _ => was,
    }
}

// The command, which is taken once the line has been quiet for 20 ms.
fn asked(rt: HostRuntime, was: Enabling, types: &[u8; 6]) -> Enabling {
    let mut room = [0u8; 255];
    let session = was.session;
    let outcome = validator::request(session, ENABLE, types, &mut room);
    let reply = outcome.reply;
    match reply {
        Err(_) => was,
        Ok(_) => left(rt, true, outcome, &room),
    }
}

// What a call leaves: its bytes are to be sent, and its closing is told.
fn left(rt: HostRuntime, sent: bool, outcome: Outcome, room: &[u8; 255]) -> Enabling {
    let session = outcome.session;
    let reply = outcome.reply;
    Enabling {
        session,
        sent,
        closed: has_closed(rt, reply, room),
    }
}

fn has_closed(rt: HostRuntime, reply: Reply, room: &[u8]) -> bool {
    match reply {
        Err(_) => false,
        Ok(Done { put, closing }) => {
            let _ = filter::send(&mut rt.stdout(), b"send validator", put, room);
            has_told(rt, closing)
        }
    }
}

fn has_told(rt: HostRuntime, closing: Closing) -> bool {
    match closing {
        Closing::Nothing => {
            return false;
        }
        Closing::Acknowledged => say(rt, b"enabled\n"),
        Closing::NotAcknowledged => say(rt, b"not enabled refused\n"),
        Closing::IllegalCommand => say(rt, b"not enabled illegal\n"),
        Closing::Answered(_) => say(rt, b"not enabled answered\n"),
        Closing::Damaged => say(rt, b"not enabled damaged\n"),
        Closing::Silent => say(rt, b"not enabled silent\n"),
    }
    true
}
