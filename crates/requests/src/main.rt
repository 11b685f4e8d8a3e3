// Lists the paying requests that a replay keeps, oldest first: of each file that an argument names, or of standard input where there is no argument. One line for
// each; a bad recording gets the one line of its report. A file that cannot be opened or read, or an argument that is no path, gets one line on standard error.
#![tactic(auto)]

use grading_rules::Findings;
use std::io;
use std::io::{Read, Write};

// The most bytes that are read at once.
const PIECE: usize = 65_536;

// The most bytes of a path.
const PATH: usize = 4_096;

fn main(rt: HostRuntime) {
    let count = files::arg_count(&rt);
    if count < 2 {
        let mut piece = [0u8; PIECE];
        list_from(rt, &mut rt.stdin(), b"standard input", &mut piece);
        return;
    }
    each(rt, count);
}

// Every argument, behind the program's own name.
fn each(rt: HostRuntime, count: usize) {
    for i in 1..count {
        named(rt, i);
    }
}

// The file that an argument names.
fn named(rt: HostRuntime, i: usize) {
    let mut path = [0u8; PATH];
    match files::arg(&rt, i, &mut path) {
        Ok(n) => at(rt, &path[..n]),
        Err(why) => files::fail(&mut rt.stderr(), &path, why),
    }
}

// The file of that path.
fn at(rt: HostRuntime, path: &[u8]) {
    if path.len() == 0 {
        let _ = Write::write_all(&mut rt.stderr(), b"an empty argument: no path\n");
        return;
    }
    match files::open_read(&rt, path) {
        Ok(file) => {
            let mut input = file;
            let mut piece = [0u8; PIECE];
            list_from(rt, &mut input, path, &mut piece);
        }
        Err(why) => files::fail(&mut rt.stderr(), path, why),
    }
}

// The recording that can be read, in pieces that are read into a lent buffer.
fn list_from<R: Read>(rt: HostRuntime, input: &mut R, name: &[u8], piece: &mut [u8]) {
    let replayed = feeding::replay_from(rt, input, piece);
    if let Some(why) = replayed.failed {
        files::fail(&mut rt.stderr(), name, why);
        return;
    }
    let found = replayed.found;
    if let Err(why) = show(&mut rt.stdout(), found) {
        files::fail(&mut rt.stderr(), b"standard output", why);
    }
}

// What a replay left: its requests, or the one line of a bad recording.
fn show<W: Write>(out: &mut W, found: Findings) -> io::Result<()> {
    let account = found.account;
    let requests = account.requests;
    match found.ending {
        Ok(()) => spoken::requests(out, requests),
        Err(_) => spoken::report(out, found),
    }
}
