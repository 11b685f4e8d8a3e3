// The bench sheet of document 01, run. The sheet is what the program reads, the file `stdin`, of at most 65,536 bytes: a line that begins
// with write, read, count or validator is tried, and written with what came of it; any other line, as the sentence of 01 or 02 that the
// next ones try, is written as it stands. The file `stdout` has what the run must write, made from 01, 02 and 003 and not from a run. The
// starred lines are proved besides, in specs/Sheet.antt.
//
// The lines are data and not code, so that the sheet can grow and the proofs do not.
#![tactic(auto)]

use std::io;
use std::io::Write;

mod answer_lines;
mod ccnet_lines;
mod command_lines;
mod lines;
mod numbers_lines;

fn main(rt: HostRuntime) -> io::Result<()> {
    let mut store = [0u8; 65_536];
    let n = files::read_all(&mut rt.stdin(), &mut store)?;
    let mut out = rt.stdout();
    sheet::each_line(&store[..n], |line| one(&mut out, line))
}

// One line, by what it tries.
fn one<W: Write>(out: &mut W, line: &[u8]) -> io::Result<()> {
    let verb = sheet::letter(line, 0);
    let kind = lines::kind(verb, line);
    match lines::tries(verb, kind) {
        b'w' => lines::write(out, kind, line),
        b'r' => lines::read(out, kind, line),
        b'c' => lines::count(out, kind, line),
        _ => sheet::print_text(out, line),
    }
}
