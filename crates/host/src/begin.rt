// How the host begins: with a new recording, or with one that goes on.
ghost use Rattle.grading_rules.specs.Promises.{Counted};

use crate::lines;
use grading_rules::{Desk, Replaying};
use recording::{Fault, Reader};
use serving::failed;
use std::fs::File;
use std::io;
use std::io::{Seek, SeekFrom, Write};

// The most bytes that are read at once.
const PIECE: usize = 65_536;

// The most bytes of an argument.
const WORD: usize = 4_096;

// By the second argument, if there is one.
pub(crate) fn with(rt: HostRuntime, path: &[u8]) {
    if files::arg_count(&rt) < 3 {
        fresh(rt, path, serving::QUIET);
        return;
    }
    let mut room = [0u8; WORD];
    match files::arg(&rt, 2, &mut room) {
        Ok(n) => told(rt, path, &room[..n]),
        Err(_) => lines::usage(rt),
    }
}

// By the word of the second argument.
fn told(rt: HostRuntime, path: &[u8], word: &[u8]) {
    if same(word, b"--switched-on") {
        fresh(rt, path, 0);
        return;
    }
    if same(word, b"--resume") {
        resume(rt, path);
        return;
    }
    lines::usage(rt);
}

fn same(a: &[u8], b: &[u8]) -> bool {
    a == b
}

// A new recording: an old one is never overwritten. No payout is taken before so many milliseconds of quiet.
fn fresh(rt: HostRuntime, path: &[u8], quiet: u32) {
    match created(rt, path) {
        Ok(file) => {
            let mut recording = file;
            lines::began(rt);
            let desk = Desk::fresh();
            serving::run(rt, &mut recording, desk, 0, quiet);
        }
        Err(why) => not_begun(rt, path, why),
    }
}

// The file, which must not be there yet.
fn created(rt: HostRuntime, path: &[u8]) -> io::Result<File> {
    File::options()
        .write(true)
        .create_new(true)
        .open(&rt, files::path_text(path)?)
}

// The file of a recording that goes on, to be read and written.
fn opened(rt: HostRuntime, path: &[u8]) -> io::Result<File> {
    File::options()
        .read(true)
        .write(true)
        .open(&rt, files::path_text(path)?)
}

// A recording that goes on: it is replayed.
fn resume(rt: HostRuntime, path: &[u8]) {
    match opened(rt, path) {
        Ok(file) => {
            let mut recording = file;
            replayed(rt, path, &mut recording);
        }
        Err(why) => not_begun(rt, path, why),
    }
}

// The recording is read to its end, and then the desk goes on.
fn replayed(rt: HostRuntime, path: &[u8], file: &mut File) {
    let mut piece = [0u8; PIECE];
    let fed = feeding::fed_from(rt, file, &mut piece);
    if let Some(why) = fed.failed {
        not_begun(rt, path, why);
        return;
    }
    let replay = fed.replay;
    go_on(rt, path, file, replay);
}

// The desk goes on where its whole records end.
fn go_on(rt: HostRuntime, path: &[u8], file: &mut File, replay: Replaying)
    requires { Counted replay }
{
    let reader = replay.reader;
    let whole = live::whole_bytes(reader, replay.fed);
    if made_ready(rt, path, file, reader, whole, replay.fed) {
        let desk = replay.desk;
        lines::resumed(rt, desk.records, whole, is_open(desk));
        serving::run(rt, file, desk, whole, serving::going_on(desk));
    }
}

// Is a command open on the dispenser's line?
fn is_open(desk: Desk) -> bool {
    let dispenser = desk.dispenser;
    let line = dispenser.line;
    exchange::line::is_open(line)
}

// A recording without a fault goes on; an unfinished last record is cut off. False where it cannot go on.
fn made_ready(
    rt: HostRuntime,
    path: &[u8],
    file: &mut File,
    reader: Reader,
    whole: u32,
    size: u32,
) -> bool {
    match reader.ended() {
        Ok(()) => cut_back(rt, path, file, whole, size),
        Err(found) => match found.fault {
            Fault::Cut => cut_back(rt, path, file, whole, size),
            why => {
                bad(rt, path, why, found.at);
                false
            }
        },
    }
}

// Cuts the file to its whole records, and goes to its end. False where that fails.
fn cut_back(rt: HostRuntime, path: &[u8], file: &mut File, whole: u32, size: u32) -> bool {
    if whole < size {
        if let Err(why) = file.set_len(whole as u64) {
            not_begun(rt, path, why);
            return false;
        }
        lines::cut(rt, whole);
    }
    match file.seek(SeekFrom::Start(whole as u64)) {
        Ok(_) => true,
        Err(why) => {
            not_begun(rt, path, why);
            false
        }
    }
}

// A recording with a fault cannot go on.
fn bad(rt: HostRuntime, path: &[u8], why: Fault, at: u64) {
    let number = why.number();
    let _ = Write::write_all(&mut rt.stderr(), path);
    let _ = eprintln!(rt; ": bad {number} at {at}");
    failed(rt);
}

fn not_begun(rt: HostRuntime, path: &[u8], why: io::Error) {
    files::fail(&mut rt.stderr(), path, why);
    failed(rt);
}
