// Tells recordings record by record: each file that an argument names, or standard input where none does. The first two arguments are the offset from which on records are told, and how many of
// them. A file that cannot be opened or read, or an argument that is no path, gets one line on standard error.
#![tactic(auto)]

mod telling;

use std::io::{Read, Write};
use telling::Untold;

// The most bytes that are read at once.
const PIECE: usize = 65_536;

// The most bytes of a path.
const PATH: usize = 4_096;

fn main(rt: HostRuntime) {
    let from = number(rt, 1);
    let most = number(rt, 2);
    let count = files::arg_count(&rt);
    if count < 4 {
        let mut piece = [0u8; PIECE];
        tell_from(
            rt,
            &mut rt.stdin(),
            b"standard input",
            &mut piece,
            from,
            most,
        );
        return;
    }
    each(rt, count, from, most);
}

// The number that an argument says.
fn number(rt: HostRuntime, i: usize) -> u32 {
    let mut word = [0u8; PATH];
    match files::arg(&rt, i, &mut word) {
        Ok(n) => sheet::number(&word[..n], 0),
        Err(_) => 0,
    }
}

// Every file.
fn each(rt: HostRuntime, count: usize, from: u32, most: u32) {
    for i in 3..count {
        named(rt, i, from, most);
    }
}

// The file that an argument names.
fn named(rt: HostRuntime, i: usize, from: u32, most: u32) {
    let mut path = [0u8; PATH];
    match files::arg(&rt, i, &mut path) {
        Ok(n) => at(rt, &path[..n], from, most),
        Err(why) => files::fail(&mut rt.stderr(), &path, why),
    }
}

// The file of that path.
fn at(rt: HostRuntime, path: &[u8], from: u32, most: u32) {
    if path.len() == 0 {
        let _ = Write::write_all(&mut rt.stderr(), b"an empty argument: no path\n");
        return;
    }
    match files::open_read(&rt, path) {
        Ok(file) => {
            let mut input = file;
            let mut piece = [0u8; PIECE];
            tell_from(rt, &mut input, path, &mut piece, from, most);
        }
        Err(why) => files::fail(&mut rt.stderr(), path, why),
    }
}

// The recording that can be read, in pieces that are read into a lent buffer.
fn tell_from<R: Read>(
    rt: HostRuntime,
    input: &mut R,
    name: &[u8],
    piece: &mut [u8],
    from: u32,
    most: u32,
) {
    match telling::tell(input, &mut rt.stdout(), piece, from as u64, most as u64) {
        Ok(()) => {}
        Err(Untold::Unread(why)) => files::fail(&mut rt.stderr(), name, why),
        Err(Untold::Unwritten(why)) => files::fail(&mut rt.stderr(), b"standard output", why),
    }
}
