// A cassette's sums, in a line of their own behind its name.
#![tactic(auto)]

use exchange_rules::Sums;
use sheet::{print_form, print_text};
use std::io;
use std::io::Write;

pub fn print_sums<W: Write>(out: &mut W, name: &[u8], s: Sums) -> io::Result<()> {
    print_text(out, name)?;
    print_form(
        out,
        b" asked # paid # short # over # refused # unknown # open # rejected #\n",
        &[
            s.asked.0,
            s.paid.0,
            s.short.0,
            s.over.0,
            s.refused.0,
            s.unknown.0,
            s.pending.0,
            s.rejected.0,
        ],
    )
}
