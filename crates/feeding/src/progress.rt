// How far a long recording is: a line on standard error where that is a terminal, and nothing otherwise. It begins after 2 s and is written over at most once a second. The
// clock has whole seconds: 3 of its turns are more than 2 s, and 2 of them more than 1.
use std::fs::{File, Metadata};
use std::io::{IsTerminal, Write};
use std::os::unix::fs::FileTypeExt;
use std::time::SystemTime;
use std::{fs, io};

// The commands of this repository read the program's standard error themselves, and lend their own as the fourth descriptor, which is opened by this name.
const LENT: &str = "/dev/fd/4";

// The terminal: standard error itself, or the descriptor that is lent.
#[derive(Drop)]
enum Terminal {
    Error,
    Lent(File),
}

#[derive(Drop)]
pub(crate) struct Progress {
    terminal: Option<Terminal>,
    // Has a line been written?
    begun: bool,
    // The second in which the last one was written, or in which the reading began.
    since: u64,
}

pub(crate) fn start(rt: HostRuntime) -> Progress {
    Progress {
        terminal: found(rt),
        begun: false,
        since: seconds(rt),
    }
}

// After so many bytes.
pub(crate) fn reached(rt: HostRuntime, progress: Progress, bytes: u32) -> Progress {
    if progress.terminal.is_none() {
        return progress;
    }
    let now = seconds(rt);
    let turns = now.wrapping_sub(progress.since);
    if turns < wait(progress.begun) {
        return progress;
    }
    let mut terminal = progress.terminal;
    if let Some(to) = &mut terminal {
        write_line(rt, to, bytes);
    }
    Progress {
        terminal,
        begun: true,
        since: now,
    }
}

// The line that was begun ends.
pub(crate) fn stop(rt: HostRuntime, progress: Progress) {
    if progress.begun {
        let mut terminal = progress.terminal;
        if let Some(to) = &mut terminal {
            write_all(rt, to, b"\n");
        }
    }
}

// The turns of the clock before the next line.
fn wait(begun: bool) -> u64 {
    if begun { 2 } else { 3 }
}

// The terminal that standard error is, or the lent descriptor.
fn found(rt: HostRuntime) -> Option<Terminal> {
    if rt.stderr().is_terminal() {
        return Some(Terminal::Error);
    }
    match lent(rt) {
        Ok(file) => {
            if file.is_terminal() {
                return Some(Terminal::Lent(file));
            }
            None
        }
        Err(_) => None,
    }
}

// The lent descriptor. It is opened only where it is what a terminal is: a pipe would be waited for.
fn lent(rt: HostRuntime) -> io::Result<File> {
    let what: Metadata = fs::metadata(&rt, LENT)?;
    if what.file_type().is_char_device() {
        return File::options().write(true).open(&rt, LENT);
    }
    Err(io::Error::from(io::ErrorKind::NotFound))
}

fn write_line(rt: HostRuntime, terminal: &mut Terminal, bytes: u32) {
    let mut room = [0u8; 10];
    match numbers::write_decimal(bytes as u64, &mut room) {
        Ok(n) => {
            if n <= room.len() {
                write_all(rt, terminal, b"\r");
                write_all(rt, terminal, &room[0..n]);
                write_all(rt, terminal, b" bytes so far");
            }
        }
        Err(_) => {}
    }
}

// Nothing is said of a write that fails.
fn write_all(rt: HostRuntime, terminal: &mut Terminal, bytes: &[u8]) {
    let _ = match terminal {
        Terminal::Error => Write::write_all(&mut rt.stderr(), bytes),
        Terminal::Lent(file) => file.write_all(bytes),
    };
}

// The clock's seconds, or 0 where it has none.
fn seconds(rt: HostRuntime) -> u64 {
    match SystemTime::now(&rt) {
        Ok(now) => match now.duration_since(SystemTime::UNIX_EPOCH) {
            Ok(since) => since.as_secs(),
            Err(_) => 0,
        },
        Err(_) => 0,
    }
}
