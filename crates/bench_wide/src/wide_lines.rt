// Lines about wide frames. The first word after the verb is the form: code, subcommand or once.
//
//     write code, room 65536: address 03h lead 60h 01h data 248 of 41h
//     read once, bytes 256: start 02h address 03h length 00h lead 60h 01h says 256 fill 41h check 00h
//
// Written: so many data bytes, all the same, into a room of that size. Read: so many bytes, made here: the opening, what the form has before the true length, the
// length that the line says, the fill, and the check, whose low byte is turned by the last byte of the line. Whatever was put or made is read in each of the three
// forms and as a narrow frame. Of the data that are handed back the line tells how many they are, and how many of them are the fill.
ghost use Rattle.std.specs.Prelude.{◌≤◌};

use ccnet_frame::Fault;
use ccnet_wide::{Form, Head, Lead};
use refusals::Put;
use std::io;
use std::io::Write;

// What each byte of a lent room holds at first.
const UNTOUCHED: u8 = 0xA5;

pub(crate) fn write<W: Write>(out: &mut W, line: &[u8]) -> io::Result<()> {
    sheet::print_whole_line(out, line)?;
    let mut lent = [UNTOUCHED; 65_536];
    write_in(out, line, &mut lent)
}

// Writes what the line gives to a room of the size that it gives.
fn write_in<W: Write>(out: &mut W, line: &[u8], lent: &mut [u8]) -> io::Result<()> {
    let end = sheet::at_most(sheet::number(line, 3) as usize, lent);
    let fill = sheet::byte(line, 12);
    match put_frame(line, fill, &mut lent[0..end]) {
        Ok(n) => print_laid(out, n, fill, lent),
        Err(why) => print_refused(out, why.number(), lent),
    }
}

fn put_frame(line: &[u8], fill: u8, lent: &mut [u8]) -> Put {
    let given = [fill; 65_536];
    let n = sheet::at_most(sheet::number(line, 10) as usize, &given);
    let lead = lead_of(
        sheet::letter(line, 1),
        sheet::byte(line, 7),
        sheet::byte(line, 8),
    );
    ccnet_wide::write(sheet::byte(line, 5), lead, &given[0..n], lent)
}

// By the form's first letter.
fn lead_of(letter: u8, first: u8, second: u8) -> Lead {
    match letter {
        b'c' => Lead::Code(first),
        b's' => Lead::Subcommand {
            code: first,
            subcommand: second,
        },
        _ => Lead::Nothing,
    }
}

// The frame's first eight bytes and its last two, and whether every other byte of the room is what it was.
fn print_laid<W: Write>(out: &mut W, n: usize, fill: u8, lent: &[u8]) -> io::Result<()> {
    sheet::print_text(out, b"    length ")?;
    sheet::print_number(out, n)?;
    sheet::print_text(out, b":")?;
    let end = sheet::at_most(n, lent);
    let front = sheet::at_most(8, lent);
    sheet::print_bytes(out, &lent[0..front])?;
    sheet::print_text(out, b" ..")?;
    print_last_two(out, &lent[0..end])?;
    sheet::print_text(out, b", rest ")?;
    print_kept(out, &lent[end..])?;
    print_read(out, &lent[0..end], fill)
}

fn print_last_two<W: Write>(out: &mut W, s: &[u8]) -> io::Result<()> {
    if let [.., a, b] = s {
        sheet::print_bytes(out, &[*a, *b])?;
    }
    Ok(())
}

fn print_refused<W: Write>(out: &mut W, number: u8, lent: &[u8]) -> io::Result<()> {
    sheet::print_form(out, b"    refused #, room ", &[number as u32])?;
    print_kept(out, lent)
}

fn print_kept<W: Write>(out: &mut W, rest: &[u8]) -> io::Result<()> {
    if rest.iter().all(|b| *b == UNTOUCHED) {
        sheet::print_text(out, b"kept\n")
    } else {
        sheet::print_text(out, b"CHANGED\n")
    }
}

// How many of the bytes are b.
fn count_of(b: u8, s: &[u8]) -> usize {
    s.iter().filter(|x| **x == b).count()
}

// The bytes, read in each of the three forms and as a narrow frame.
fn print_read<W: Write>(out: &mut W, s: &[u8], fill: u8) -> io::Result<()> {
    sheet::print_text(out, b"    code:")?;
    print_form_read(out, Form::AfterCode, s, fill)?;
    sheet::print_text(out, b"; subcommand:")?;
    print_form_read(out, Form::AfterSubcommand, s, fill)?;
    sheet::print_text(out, b"; once:")?;
    print_form_read(out, Form::AtOnce, s, fill)?;
    sheet::print_text(out, b"; narrow:")?;
    print_judged(out, ccnet_frame::judge(s))?;
    sheet::print_text(out, b"\n")
}

fn print_form_read<W: Write>(out: &mut W, form: Form, s: &[u8], fill: u8) -> io::Result<()> {
    print_head(out, ccnet_wide::judge(form, s))?;
    print_data(out, ccnet_wide::data_of(form, s), fill)
}

fn print_head<W: Write>(out: &mut W, judged: Result<Head, Fault>) -> io::Result<()> {
    print_judged(out, judged.map(|head| head.address))?;
    if let Ok(head) = judged {
        print_lead(out, head.lead)?;
    }
    Ok(())
}

fn print_judged<W: Write>(out: &mut W, judged: Result<u8, Fault>) -> io::Result<()> {
    match judged {
        Ok(address) => sheet::print_form(out, b" address $", &[address as u32]),
        Err(why) => sheet::print_form(out, b" refused #", &[why.number() as u32]),
    }
}

fn print_lead<W: Write>(out: &mut W, lead: Lead) -> io::Result<()> {
    match lead {
        Lead::Code(code) => sheet::print_form(out, b" code $", &[code as u32]),
        Lead::Subcommand { code, subcommand } => {
            sheet::print_form(
                out,
                b" code $ subcommand $",
                &[code as u32, subcommand as u32],
            )
        }
        Lead::Nothing => sheet::print_text(out, b" no code"),
    }
}

fn print_data<W: Write>(out: &mut W, part: &[u8], fill: u8) -> io::Result<()> {
    sheet::print_text(out, b" data ")?;
    sheet::print_number(out, part.len())?;
    sheet::print_text(out, b" fill ")?;
    sheet::print_number(out, count_of(fill, part))
}

pub(crate) fn read<W: Write>(out: &mut W, line: &[u8]) -> io::Result<()> {
    sheet::print_whole_line(out, line)?;
    let fill = sheet::byte(line, 16);
    let mut made = [fill; 65_536];
    let end = sheet::at_most(sheet::number(line, 3) as usize, &made);
    read_in(out, line, fill, &mut made[0..end])
}

fn read_in<W: Write>(out: &mut W, line: &[u8], fill: u8, made: &mut [u8]) -> io::Result<()> {
    put_opening(line, made);
    put_length(
        length_place(sheet::letter(line, 1)),
        sheet::number(line, 14),
        made,
    );
    put_check(sheet::byte(line, 18), made);
    print_read(out, made, fill)
}

// 02h, address and length byte, or what the line gives in their place; then the two lead bytes, of which the true length covers those that its form does not have.
fn put_opening(line: &[u8], made: &mut [u8]) {
    put(sheet::byte(line, 5), 0, made);
    put(sheet::byte(line, 7), 1, made);
    put(sheet::byte(line, 9), 2, made);
    put(sheet::byte(line, 11), 3, made);
    put(sheet::byte(line, 12), 4, made);
}

// Where the true length stands, by the form's first letter.
fn length_place(letter: u8) -> usize
    ensures { result ≤ 5 }
{
    match letter {
        b'c' => 4,
        b's' => 5,
        _ => 3,
    }
}

fn put_length(at: usize, says: u32, made: &mut [u8])
    requires { at ≤ 5 }
{
    put((says / 256 % 256) as u8, at, made);
    put((says % 256) as u8, at + 1, made);
}

fn put(b: u8, place: usize, made: &mut [u8]) {
    if let Some(held) = made.get_mut(place) {
        *held = b;
    }
}

// The two check bytes, low byte first, behind the bytes that they are of.
fn put_check(turned: u8, made: &mut [u8]) {
    let n = made.len();
    if n < 2 {
        return;
    }
    let c = ccnet_check::check_of(&made[0..n - 2]);
    put((c % 256) as u8 ^ turned, n - 2, made);
    put((c / 256) as u8, n - 1, made);
}
