// Turns the lines of `explain` back into a recording: of the file that its argument names, or of standard input where there is none. It reads and writes line by line. A line that is not
// understood gets one line on standard error, and there it ends; so do a read and a write that fail. A file that cannot be opened, or an argument that is no path, gets such a line too.
#![tactic(auto)]

mod lines;
mod reading;

use std::io::{Read, Write};

// The most bytes that are read at once.
const PIECE: usize = 65_536;

// The most bytes of a path.
const PATH: usize = 4_096;

fn main(rt: HostRuntime) {
    if files::arg_count(&rt) < 2 {
        record_from(rt, &mut rt.stdin(), b"standard input");
        return;
    }
    let mut path = [0u8; PATH];
    match files::arg(&rt, 1, &mut path) {
        Ok(n) => at(rt, &path[..n]),
        Err(why) => files::fail(&mut rt.stderr(), &path, why),
    }
}

// The file of that path.
fn at(rt: HostRuntime, path: &[u8]) {
    if path.len() == 0 {
        let _ = Write::write_all(&mut rt.stderr(), b"an empty argument: no path\n");
        return;
    }
    match files::open_read(&rt, path) {
        Ok(file) => {
            let mut input = file;
            record_from(rt, &mut input, path);
        }
        Err(why) => files::fail(&mut rt.stderr(), path, why),
    }
}

// The text that can be read.
fn record_from<R: Read>(rt: HostRuntime, input: &mut R, name: &[u8]) {
    let mut piece = [0u8; PIECE];
    let mut line = [0u8; reading::LINE];
    if let Err(why) = reading::read(rt, input, &mut piece, &mut line) {
        files::fail(&mut rt.stderr(), name, why);
    }
}
