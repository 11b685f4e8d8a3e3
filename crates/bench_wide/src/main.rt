// The bench sheet, the lines about wide CCNET frames. A line of the file `stdin` that begins with write or read is tried, and written with what came of
// it; any other line is written as it stands. The file `stdout` has what the run must write, made from documents 01 and 02 and from 003, and not from a
// run.
#![tactic(auto)]

use std::io;
use std::io::Write;

mod wide_lines;

fn main(rt: HostRuntime) -> io::Result<()> {
    let mut store = [0u8; 65_536];
    let n = files::read_all(&mut rt.stdin(), &mut store)?;
    let mut out = rt.stdout();
    sheet::each_line(&store[..n], |line| one(&mut out, line))
}

// One line, by its verb.
fn one<W: Write>(out: &mut W, line: &[u8]) -> io::Result<()> {
    match sheet::letter(line, 0) {
        b'w' => wide_lines::write(out, line),
        b'r' => wide_lines::read(out, line),
        _ => sheet::print_text(out, line),
    }
}
