// What a call answered, what the account says, and commands and answers with their fields in the frame's order. A call that sends, closes or is refused says so in a line of its
// own.
use crate::calls::Kind;
use sheet_sums::print_sums;
use std::io;
use std::io::Write;
use vcdm_frame_rules::{Answer, Cassettes, Command, Place, Places, Spare};
use vcdm_rules::{Closing, Reply, Session};

// Of dispenses that are refused one by one nothing is said.
pub(crate) fn reply<W: Write>(
    out: &mut W,
    kind: Kind,
    reply: Reply,
    lent: &[u8],
) -> io::Result<()> {
    match reply {
        _ if kind == Kind::DispensesRefused => Ok(()),
        Ok(done) => {
            sheet::print_done(out, done.put, lent)?;
            closed(out, done.closing)
        }
        Err(why) => sheet::print_not_done(out, why.number(), lent),
    }
}

fn closed<W: Write>(out: &mut W, closing: Closing) -> io::Result<()> {
    match closing {
        Closing::Nothing => Ok(()),
        Closing::Answered(given) => {
            sheet::print_text(out, b"    closed, answered")?;
            answer(out, given)
        }
        Closing::Refused => sheet::print_text(out, b"    closed, refused\n"),
        Closing::Unknown => sheet::print_text(out, b"    closed, unknown\n"),
    }
}

pub(crate) fn account<W: Write>(out: &mut W, session: Session) -> io::Result<()> {
    print_sums(out, b"    top", session.account.top)?;
    print_sums(out, b"    second", session.account.second)?;
    print_sums(out, b"    third", session.account.third)?;
    print_sums(out, b"    bottom", session.account.bottom)
}

// A command's code, counts and serial.
pub(crate) fn command<W: Write>(out: &mut W, command: Command) -> io::Result<()> {
    let n = command.counts;
    sheet::print_form(
        out,
        b" reads as $ counts # # # # serial $\n",
        &[
            command.code as u32,
            n.top,
            n.second,
            n.third,
            n.bottom,
            command.serial as u32,
        ],
    )
}

// An answer's code and the values of its fields.
pub(crate) fn answer<W: Write>(out: &mut W, answer: Answer) -> io::Result<()> {
    sheet::print_form(out, b" $", &[vcdm_frame::code_of(answer) as u32])?;
    match answer {
        Answer::Reset { error } => bytes(out, b" error $\n", error, 0, 0),
        Answer::Status {
            error,
            disp0,
            disp1,
            places,
        } => {
            bytes(out, b" error $ DISP $ $", error, disp0, disp1)?;
            show_places(out, places)
        }
        Answer::Purged {
            error,
            miss,
            cassettes,
            spare,
        } => {
            bytes(out, b" error $ MISS $", error, miss, 0)?;
            show_paid(out, cassettes, spare)
        }
        Answer::Dispensed {
            error,
            serial,
            cassettes,
            spare,
        } => {
            bytes(out, b" error $ serial $", error, serial, 0)?;
            show_paid(out, cassettes, spare)
        }
        Answer::Last {
            last,
            error,
            serial,
            cassettes,
            spare,
        } => {
            bytes(out, b" last $ error $ serial $", last, error, serial)?;
            show_paid(out, cassettes, spare)
        }
    }
}

fn bytes<W: Write>(out: &mut W, form: &[u8], a: u8, b: u8, c: u8) -> io::Result<()> {
    sheet::print_form(out, form, &[a as u32, b as u32, c as u32])
}

fn show_places<W: Write>(out: &mut W, p: Places) -> io::Result<()> {
    show_place(out, b" top STAT $ TYPE $ OPAC $ LENG $", p.top)?;
    show_place(out, b" second STAT $ TYPE $ OPAC $ LENG $", p.second)?;
    show_place(out, b" third STAT $ TYPE $ OPAC $ LENG $", p.third)?;
    show_place(out, b" bottom STAT $ TYPE $ OPAC $ LENG $\n", p.bottom)
}

fn show_place<W: Write>(out: &mut W, form: &[u8], p: Place) -> io::Result<()> {
    sheet::print_form(
        out,
        form,
        &[
            p.stat as u32,
            p.kind as u32,
            p.opacity as u32,
            p.length as u32,
        ],
    )
}

fn show_paid<W: Write>(out: &mut W, cassettes: Cassettes, spare: Spare) -> io::Result<()> {
    show_cassettes(out, cassettes)?;
    show_spare(out, spare)
}

fn show_cassettes<W: Write>(out: &mut W, c: Cassettes) -> io::Result<()> {
    sheet::print_form(
        out,
        b" top EXIT # REJECT # CASSETTE $ second EXIT # REJECT # CASSETTE $ third EXIT # REJECT # CASSETTE $ bottom EXIT # REJECT # CASSETTE $",
        &[
            c.top.exit,
            c.top.rejects,
            c.top.kind as u32,
            c.second.exit,
            c.second.rejects,
            c.second.kind as u32,
            c.third.exit,
            c.third.rejects,
            c.third.kind as u32,
            c.bottom.exit,
            c.bottom.rejects,
            c.bottom.kind as u32,
        ],
    )
}

fn show_spare<W: Write>(out: &mut W, r: Spare) -> io::Result<()> {
    sheet::print_form(
        out,
        b" RSV $ $ $ $ $ $ $ $ $\n",
        &[
            r.a as u32, r.b as u32, r.c as u32, r.d as u32, r.e as u32, r.f as u32, r.g as u32,
            r.h as u32, r.i as u32,
        ],
    )
}
