// The bench sheet, the lines that try all 256 bytes at one place. A line of the file `stdin` that begins with each, turn or check is tried, and
// written with what came of it; any other line is written as it stands. The file `stdout` has what the run must write, made from document 01 and not
// from a run.
#![tactic(auto)]

use std::io;
use std::io::Write;

mod fares;
mod lines;

fn main(rt: HostRuntime) -> io::Result<()> {
    let mut store = [0u8; 65_536];
    let n = files::read_all(&mut rt.stdin(), &mut store)?;
    let mut out = rt.stdout();
    sheet::each_line(&store[..n], |line| one(&mut out, line))
}

// A line is tried by its verb.
fn one<W: Write>(out: &mut W, line: &[u8]) -> io::Result<()> {
    let verb = sheet::letter(line, 0);
    if !lines::is_tried(verb) {
        return sheet::print_text(out, line);
    }
    sheet::print_line(out, line)?;
    sheet::print_text(out, b" ->")?;
    let mut store = [0u8; 32];
    let n = sheet::frame(line, &mut store);
    lines::run(out, verb, line, &mut store[0..n])
}
