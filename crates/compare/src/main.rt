// Compares recordings for markers: of each two files that its arguments name, a student's and the reference, it writes where they part, on standard output. A file that cannot be
// opened or read gets one line on standard error, and the two no other.
//
// A recording may have 4 GiB, and at most 64 KiB of each are held: equal whole records are passed over, and what follows them is read again from the last record's end on. That
// changes nothing (`LeavingOut` and `Window` in crates/parted/specs/Promises.antt).
#![tactic(auto)]

ghost use Rattle.std.specs.Prelude.{◌≤◌, length, IfOk};
ghost use Rattle.compare.specs.Progress.{Progress};

use std::fs::File;
use std::io;
use std::io::Write;
use std::os::unix::fs::FileExt;

// The most bytes that a recording may have.
const MOST: usize = 4_294_967_295;

// The most bytes that are read at once.
const PIECE: usize = 65_536;

// The most bytes of a path.
const PATH: usize = 4_096;

fn main(rt: HostRuntime) {
    each(rt, files::arg_count(&rt));
}

// Every two arguments, behind the program's own name.
fn each(rt: HostRuntime, count: usize) {
    for student in (1..count.saturating_sub(1)).step_by(2) {
        opened(rt, student, student + 1);
    }
}

// The two files that arguments name.
fn opened(rt: HostRuntime, i: usize, j: usize) {
    let mut student = [0u8; PATH];
    match files::arg(&rt, i, &mut student) {
        Ok(n) => beside(rt, &student[..n], j),
        Err(why) => files::fail(&mut rt.stderr(), &student, why),
    }
}

// And the second of them.
fn beside(rt: HostRuntime, student: &[u8], j: usize) {
    let mut reference = [0u8; PATH];
    match files::arg(&rt, j, &mut reference) {
        Ok(m) => both(rt, student, &reference[..m]),
        Err(why) => files::fail(&mut rt.stderr(), &reference, why),
    }
}

// The two files of those names.
fn both(rt: HostRuntime, student: &[u8], reference: &[u8]) {
    match files::open_read(&rt, student) {
        Ok(s) => match files::open_read(&rt, reference) {
            Ok(r) => compare_files(rt, &s, &r, student, reference),
            Err(why) => files::fail(&mut rt.stderr(), reference, why),
        },
        Err(why) => files::fail(&mut rt.stderr(), student, why),
    }
}

// Passes over equal whole records until there are none, or more than a recording may have.
fn compare_files(rt: HostRuntime, s: &File, r: &File, student: &[u8], reference: &[u8]) {
    let mut at: usize = 0;
    let mut records: usize = 0;
    // No `for`: each look says how much it passes over.
    while at <= MOST {
        let Some(passed) = look_at(rt, s, r, student, reference, at, records) else {
            return;
        };
        at += passed.bytes;
        records += passed.records;
    }
    let _ = Write::write_all(&mut rt.stderr(), student);
    let _ = eprintln!(rt; ": over 4,294,967,295 bytes, and no difference in them");
}

// So many bytes, and records, that a look from the end of a record on finds the same in both files.
#[derive(Clone, Copy)]
pub(crate) struct Passed {
    bytes: usize,
    records: usize,
}

// Behind `at` bytes, which are so many records: a window of each. None where all is said.
fn look_at(
    rt: HostRuntime,
    s: &File,
    r: &File,
    student: &[u8],
    reference: &[u8],
    at: usize,
    records: usize,
) -> Option<Passed>
    requires { at ≤ 4_294_967_295 }
    ensures { Progress result }
{
    let mut a = [0u8; PIECE];
    match read_window(s, at, &mut a) {
        Ok(n) => look_beside(rt, r, &a[0..n], reference, at, records),
        Err(why) => {
            files::fail(&mut rt.stderr(), student, why);
            None
        }
    }
}

// The same, beside the student's window.
fn look_beside(
    rt: HostRuntime,
    r: &File,
    student: &[u8],
    reference: &[u8],
    at: usize,
    records: usize,
) -> Option<Passed>
    requires at_bound { at ≤ 4_294_967_295 }
    requires window_bound { length student.now ≤ 65_536 }
    ensures { Progress result }
{
    let mut b = [0u8; PIECE];
    match read_window(r, at, &mut b) {
        Ok(m) => compare_windows(rt, student, &b[0..m], at, records),
        Err(why) => {
            files::fail(&mut rt.stderr(), reference, why);
            None
        }
    }
}

// Where no equal record stands at their start, what is found there is what is found of the two recordings.
fn compare_windows(
    rt: HostRuntime,
    student: &[u8],
    reference: &[u8],
    at: usize,
    records: usize,
) -> Option<Passed>
    requires { length student.now ≤ 65_536 }
    ensures { Progress result }
{
    let found = parted::parting(student, reference);
    let bytes = found.at;
    let more = found.records;
    if 0 < bytes {
        return Some(Passed {
            bytes,
            records: more,
        });
    }
    let _ = sheet_parted::print_parted(&mut rt.stdout(), found, student, reference, at, records);
    None
}

// Reads from an offset on until the room is full or the file ends, and answers how many bytes that were, or why a read fails.
fn read_window(file: &File, from: usize, room: &mut [u8]) -> io::Result<usize>
    requires from_bound { from ≤ 4_294_967_295 }
    requires room_len_bound { length room.old ≤ 65_536 }
    ensures { IfOk result (λ n. n ≤ length room.new) }
{
    let mut at: usize = 0;
    // No `for`: each read says how far it goes.
    while at < room.len() {
        let n = file.read_at(&mut room[at..], (from + at) as u64)?;
        if n == 0 {
            return Ok(at);
        }
        at += n;
    }
    Ok(at)
}
