// The lines of a sheet.
ghost use Rattle.std.specs.Prelude.{IfErr, Err};

use crate::{print, words};
use std::io;
use std::io::Write;

// Calls f on each line in turn, with the end of line that it has, until a call fails: that failure is handed back.
pub fn each_line<F: FnMut(&[u8]) -> io::Result<()>>(all: &[u8], mut f: F) -> io::Result<()>
    requires { F.IsAlwaysCallable f }
    ensures { IfErr result (λ e. (state : F) × (line : _) × (next : F) × F.step state line (Err e) next) }
{
    let mut at = 0;
    // No `for`: each line says how far it goes, and `line_end` that it gets on.
    while at < all.len() {
        let end = words::line_end(all, at);
        f(&all[at..end])?;
        at = end;
    }
    Ok(())
}

// The line with the end that it has, behind two blanks.
pub fn print_whole_line<W: Write>(out: &mut W, line: &[u8]) -> io::Result<()> {
    print::print_text(out, b"  ")?;
    print::print_text(out, line)
}
