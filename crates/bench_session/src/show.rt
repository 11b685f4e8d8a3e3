// What a call answered, and what the account says. A call that sends, closes or is refused says so in a line of its own.
use crate::calls::Kind;
use dispenser_rules::{Closing, Reply, Session};
use sheet_sums::print_sums;
use std::io;
use std::io::Write;

// Clear is lent no room; of commands that are refused one by one nothing is said.
pub(crate) fn reply<W: Write>(
    out: &mut W,
    kind: Kind,
    reply: Reply,
    lent: &[u8],
) -> io::Result<()> {
    match reply {
        _ if kind == Kind::CommandsRefused => Ok(()),
        Ok(done) => {
            sheet::print_done(out, done.put, lent)?;
            closed(out, done.closing)
        }
        Err(why) if kind == Kind::OperatorClears => {
            sheet::print_form(out, b"    -> refused #\n", &[why.number() as u32])
        }
        Err(why) => sheet::print_not_done(out, why.number(), lent),
    }
}

fn closed<W: Write>(out: &mut W, closing: Closing) -> io::Result<()> {
    match closing {
        Closing::Nothing => Ok(()),
        Closing::Answered(answer, class) => {
            sheet::print_text(out, b"    closed, answered")?;
            sheet_answer::print_read(out, answer, class)
        }
        Closing::Refused => sheet::print_text(out, b"    closed, refused\n"),
        Closing::Unknown => sheet::print_text(out, b"    closed, unknown\n"),
    }
}

pub(crate) fn account<W: Write>(out: &mut W, session: Session) -> io::Result<()> {
    print_sums(out, b"    upper", session.account.cassettes.upper)?;
    print_sums(out, b"    lower", session.account.cassettes.lower)
}
