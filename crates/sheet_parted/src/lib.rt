// The lines that tell a marker where two recordings part: one, and where they do part two more, with the next record of each. Document 02, Q-8.
//
//     equal 52
//     student bad 22 at 7
//     part at 37 record 12 student
//     student 01 15
//     reference end
#![tactic(auto)]

use parted::{Malformed, Parted, Whose};
use recording::record_at;
use sheet::{at_most, print_bytes, print_number, print_text};
use std::io;
use std::io::Write;

// What was found of two recordings, or of what is left of them behind equal records. `at` and `records` are the place and the count in the whole recordings.
pub fn print_parted<W: Write>(
    out: &mut W,
    found: Parted,
    student: &[u8],
    reference: &[u8],
    at: usize,
    records: usize,
) -> io::Result<()> {
    match found.next {
        Ok(whose) => {
            let s = at_most(found.at, student);
            let r = at_most(found.at, reference);
            print_rest(out, whose, &student[s..], &reference[r..], at, records)
        }
        Err(fault) => print_bad(out, fault, at),
    }
}

fn print_bad<W: Write>(out: &mut W, fault: Malformed, at: usize) -> io::Result<()> {
    print_whose(out, fault.whose)?;
    print_text(out, b" bad ")?;
    print_number(out, fault.why.number() as usize)?;
    print_text(out, b" at ")?;
    print_number(out, at)?;
    print_text(out, b"\n")
}

// What each has left. Both have ended: they are equal.
fn print_rest<W: Write>(
    out: &mut W,
    whose: Whose,
    student: &[u8],
    reference: &[u8],
    at: usize,
    records: usize,
) -> io::Result<()> {
    if student.len() == 0 {
        if reference.len() == 0 {
            print_text(out, b"equal ")?;
            print_number(out, at)?;
            return print_text(out, b"\n");
        }
    }
    print_text(out, b"part at ")?;
    print_number(out, at)?;
    print_text(out, b" record ")?;
    print_number(out, records)?;
    print_text(out, b" ")?;
    print_whose(out, whose)?;
    print_text(out, b"\nstudent")?;
    print_record(out, student)?;
    print_text(out, b"\nreference")?;
    print_record(out, reference)?;
    print_text(out, b"\n")
}

fn print_whose<W: Write>(out: &mut W, whose: Whose) -> io::Result<()> {
    match whose {
        Whose::Student => print_text(out, b"student"),
        Whose::Reference => print_text(out, b"reference"),
    }
}

// The record that what is left begins with.
fn print_record<W: Write>(out: &mut W, rest: &[u8]) -> io::Result<()> {
    if rest.len() == 0 {
        return print_text(out, b" end");
    }
    match record_at(rest, 0) {
        Ok((_, n)) => {
            let end = at_most(n, rest);
            print_bytes(out, &rest[0..end])
        }
        // where they part each has a record or has ended
        Err(_) => Ok(()),
    }
}
