// Lines about numbers.
//
//     write groups, room 24: 1000
//     read groups, 0 in two groups: 80 00
//     write decimal, room 24: 10
//     write two-digits, room 2: 5
//     read two-digits, five: 30 35
use numbers::{NoSeven, Seven};
use refusals::Put;
use std::io;
use std::io::Write;

// Writes a number. The digits of a count fill their room.
pub(crate) fn put(kind: u8, n: u32, room: &mut [u8]) -> Put {
    match kind {
        b'g' => numbers::write_groups(n, room),
        b'd' => numbers::write_decimal(n as u64, room),
        _ => {
            numbers::put_digits(n as u64, room);
            Ok(room.len())
        }
    }
}

// What reading a number finds, in groups of seven bits or in digits.
pub(crate) fn found<W: Write>(out: &mut W, kind: u8, s: &[u8]) -> io::Result<()> {
    if kind == b'g' {
        return groups(out, numbers::read_groups(s));
    }
    match numbers::read_digits(s) {
        Some(n) => sheet::print_form(out, b" reads as #\n", &[n]),
        None => sheet::print_text(out, b" no number\n"),
    }
}

fn groups<W: Write>(out: &mut W, found: Result<Seven, NoSeven>) -> io::Result<()> {
    match found {
        Ok(Seven { value, used }) => {
            sheet::print_form(out, b" reads as #, length ", &[value])?;
            sheet::print_number(out, used)?;
            sheet::print_text(out, b"\n")
        }
        Err(why) => sheet::print_fault(out, why.number()),
    }
}
