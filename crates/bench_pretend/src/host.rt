// The host's end: its session, and what came of each call.
use dispenser_rules::{Closing, Reply, Session};
use sheet_device::moves::Move;
use sheet_device::{Way, moves};
use sheet_session::Call;
use std::io;
use std::io::Write;

// Every call of a move, in turn.
pub(crate) fn moved<W: Write>(
    out: &mut W,
    word: &[u8],
    session: Session,
    up: &mut Way,
    down: &mut Way,
) -> io::Result<Session> {
    let Some(what) = moves::what(b'h', word) else {
        return Ok(session);
    };
    let mut now = session;
    for _ in 0..moves::calls(what, word, up, down) {
        now = one(out, call_of(what, word, up), now, down)?;
    }
    Ok(now)
}

fn call_of(what: Move, word: &[u8], up: &mut Way) -> Call {
    match what {
        Move::Hear => Call::Byte(up.next()),
        Move::Wait => Call::Tick(moves::number(word, 0)),
        Move::Ask => Call::Request {
            code: moves::byte(word, 0),
            upper: moves::number(word, 1),
            lower: moves::number(word, 2),
        },
        Move::Stray => Call::Byte(moves::byte(word, 0)),
        _ => Call::Clear,
    }
}

// Makes a call, and shows what it answered; what it put is on its way.
fn one<W: Write>(out: &mut W, call: Call, session: Session, down: &mut Way) -> io::Result<Session> {
    let mut lent = sheet::fresh_room::<{ sheet::SHORT }>();
    let outcome = sheet_session::made(call, session, &mut lent[..down.room()]);
    show(out, outcome.reply, &lent, down)?;
    Ok(outcome.session)
}

fn show<W: Write>(out: &mut W, reply: Reply, lent: &[u8], down: &mut Way) -> io::Result<()> {
    match reply {
        Ok(done) => {
            down.put_on(out, b"host puts", done.put, lent)?;
            closed(out, done.closing)
        }
        Err(why) => sheet::print_form(out, b"host refused #\n", &[why.number() as u32]),
    }
}

fn closed<W: Write>(out: &mut W, closing: Closing) -> io::Result<()> {
    match closing {
        Closing::Nothing => Ok(()),
        Closing::Answered(..) => sheet::print_text(out, b"host closes answered\n"),
        Closing::Refused => sheet::print_text(out, b"host closes refused\n"),
        Closing::Unknown => sheet::print_text(out, b"host closes unknown\n"),
    }
}
