// The bench sheet, the lines about bill tables. A line of the file `stdin` that begins with word or table is tried, and written with what came of it; any other line is
// written as it stands. The file `stdout` has what the run must write, made from document 02 and from 003, and not from a run.
#![tactic(auto)]

use std::io;
use std::io::Write;

mod table_lines;

fn main(rt: HostRuntime) -> io::Result<()> {
    let mut store = [0u8; 65_536];
    let n = files::read_all(&mut rt.stdin(), &mut store)?;
    let mut out = rt.stdout();
    sheet::each_line(&store[..n], |line| one(&mut out, line))
}

// One line, by its verb.
fn one<W: Write>(out: &mut W, line: &[u8]) -> io::Result<()> {
    match sheet::letter(line, 0) {
        b'w' => table_lines::word(out, line),
        b't' => table_lines::table(out, line),
        _ => sheet::print_text(out, line),
    }
}
