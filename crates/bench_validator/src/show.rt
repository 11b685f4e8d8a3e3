// What a call answered, and what the session keeps. A call that sends, closes or is refused says so in a line of its own.
ghost use Rattle.std.specs.Prelude.{◌<◌};

use crate::calls::Kind;
use ccnet_class::Class;
use std::io;
use std::io::Write;
use validator_rules::{Bills, Closing, Reply, Session};

// Of polls that are not answered nothing is said.
pub(crate) fn reply<W: Write>(
    out: &mut W,
    kind: Kind,
    reply: Reply,
    lent: &[u8],
) -> io::Result<()> {
    match reply {
        _ if kind == Kind::PollsUnanswered => Ok(()),
        Ok(done) => {
            sheet::print_done(out, done.put, lent)?;
            closed(out, done.closing)
        }
        Err(why) => sheet::print_not_done(out, why.number(), lent),
    }
}

fn closed<W: Write>(out: &mut W, closing: Closing) -> io::Result<()> {
    match closing {
        Closing::Nothing => Ok(()),
        Closing::Acknowledged => told(out, b"acknowledged", 0),
        Closing::NotAcknowledged => told(out, b"refused", 0),
        Closing::IllegalCommand => told(out, b"illegal", 0),
        Closing::Damaged => told(out, b"damaged", 0),
        Closing::Silent => told(out, b"silent", 0),
        Closing::Answered(class) => answered(out, class),
    }
}

// The class of the body; of a state, and of what is told with it, the byte.
fn answered<W: Write>(out: &mut W, class: Class) -> io::Result<()> {
    match class {
        Class::State(b) => told(out, b"answered, state $", b),
        Class::Busy(b) => told(out, b"answered, busy #", b),
        Class::Rejecting(b) => told(out, b"answered, rejecting $", b),
        Class::Failing(b) => told(out, b"answered, failing $", b),
        Class::Escrow(y) => told(out, b"answered, escrow, type #", y),
        Class::Stacked(y) => told(out, b"answered, stacked, type #", y),
        Class::Returned(y) => told(out, b"answered, returned, type #", y),
        Class::Table => told(out, b"answered, table", 0),
        _ => told(out, b"answered, unknown", 0),
    }
}

fn told<W: Write>(out: &mut W, form: &[u8], b: u8) -> io::Result<()> {
    sheet::print_text(out, b"    closed, ")?;
    sheet::print_form(out, form, &[b as u32])?;
    sheet::print_text(out, b"\n")
}

// The bills of each type of which there are any, the words of the bill table that are not all 0, and how many bytes of the gathering store are not 0.
pub(crate) fn kept<W: Write>(out: &mut W, session: Session) -> io::Result<()> {
    bills(out, session.bills)?;
    words(out, &session.table)?;
    store(out, &session.store)
}

fn bills<W: Write>(out: &mut W, counts: [Bills; 24]) -> io::Result<()> {
    for (y, Bills(n)) in (0..24).zip(counts) {
        if 0 < n {
            sheet::print_form(out, b"    type # bills #\n", &[y, n])?;
        }
    }
    Ok(())
}

fn words<W: Write>(out: &mut W, table: &[u8]) -> io::Result<()> {
    for (y, word) in (0..24).zip(table.chunks_exact(5)) {
        if word.iter().any(|b| *b != 0) {
            sheet::print_form(out, b"    word #:", &[y])?;
            sheet::print_bytes(out, word)?;
            sheet::print_text(out, b"\n")?;
        }
    }
    Ok(())
}

fn store<W: Write>(out: &mut W, bytes: &[u8]) -> io::Result<()> {
    sheet::print_text(out, b"    bytes of the store not 0: ")?;
    sheet::print_number(out, bytes.iter().filter(|b| **b != 0).count())?;
    sheet::print_text(out, b"\n")
}
