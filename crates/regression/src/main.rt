// Replays the example recordings that its arguments name, and holds the report of each to the one that it must give: in one piece, cut in two at every place, and byte by
// byte. For an argument NAME the recording is NAME.rec and the report NAME.report, both in data/; NAME.txt says what the recording holds and what it shows.
#![tactic(auto)]

ghost use Rattle.std.specs.Prelude.{◌≤◌, length, IfSome};

use grading_rules::{Findings, Replaying};
use std::io::Write;

// No example has more bytes.
const RECORDING: usize = 65_536;

// The most bytes of a path.
const PATH: usize = 4_096;

fn main(rt: HostRuntime) {
    each(rt, files::arg_count(&rt));
}

// Every argument, behind the program's own name.
fn each(rt: HostRuntime, count: usize) {
    for i in 1..count {
        named(rt, i);
    }
}

// The example that an argument names.
fn named(rt: HostRuntime, i: usize) {
    let mut name = [0u8; PATH];
    match files::arg(&rt, i, &mut name) {
        Ok(n) => example(rt, &name[..n]),
        Err(_) => example(rt, b""),
    }
}

fn example(rt: HostRuntime, name: &[u8]) {
    let mut recording = [0u8; RECORDING];
    let mut wanted = [0u8; 4096];
    let got = read(rt, name, b".rec", &mut recording);
    let must = read(rt, name, b".report", &mut wanted);
    let Some(n) = got else {
        return;
    };
    let Some(k) = must else {
        return;
    };
    hold(rt, name, &recording[..n], &wanted[..k]);
}

// Reads the file of an example with that ending, and says on standard error where it cannot.
fn read(rt: HostRuntime, name: &[u8], ending: &[u8], room: &mut [u8]) -> Option<usize>
    ensures { IfSome result (λ n. n ≤ length room.new) }
{
    let mut path = [0u8; PATH];
    let a = put(name, &mut path, 0);
    let n = put(ending, &mut path, a);
    match files::read_file(&rt, front(&path, n), room) {
        Ok(got) => Some(got),
        Err(why) => {
            files::fail(&mut rt.stderr(), front(&path, n), why);
            None
        }
    }
}

// Adds bytes behind those before a place, as far as there is room, and says where they end.
fn put(bytes: &[u8], text: &mut [u8], at: usize) -> usize {
    let mut end = at;
    for b in bytes {
        if end >= text.len() {
            return end;
        }
        text[end] = *b;
        end += 1;
    }
    end
}

// The first so many bytes; all where there are not so many.
fn front<'a>(text: &'a [u8], n: usize) -> &'a [u8] {
    if n <= text.len() {
        return &text[0..n];
    }
    text
}

// Holds the report of a recording to the one that it must give, and what is judged of the recording to that report.
fn hold(rt: HostRuntime, name: &[u8], recording: &[u8], wanted: &[u8]) {
    if is_bad(recording) != is_same(front(wanted, 4), b"bad ") {
        say(rt, name, b": NOT judged as it must be\n");
    }
    let mut room = [0u8; report::LONGEST];
    match report::report(recording, &mut room) {
        Ok(n) => judged(rt, name, front(&room, n), wanted),
        Err(_) => {
            let _ = eprintln!(rt; "no room for the report");
        }
    }
    hold_cut(rt, name, recording, wanted);
    hold_found(rt, name, byte_by_byte(recording), wanted);
}

// The same of the recording cut in two at every place, before its first byte and behind its last too.
fn hold_cut(rt: HostRuntime, name: &[u8], recording: &[u8], wanted: &[u8]) {
    for at in 0..recording.len() {
        hold_found(rt, name, in_two(recording, at), wanted);
    }
    hold_found(rt, name, in_two(recording, recording.len()), wanted);
}

// What is found in a recording that is fed in two pieces.
fn in_two(recording: &[u8], at: usize) -> Findings
    requires { at ≤ length recording.now }
{
    let first = grading::feed(Replaying::fresh(), &recording[0..at]);
    let second = grading::feed(first, &recording[at..]);
    grading::ended(second)
}

// What is found in a recording that is fed byte by byte, with an empty piece behind each.
fn byte_by_byte(recording: &[u8]) -> Findings {
    let mut replay = Replaying::fresh();
    for i in 0..recording.len() {
        let one = grading::feed(replay, &recording[i..i + 1]);
        let next = grading::feed(one, b"");
        replay = next;
    }
    grading::ended(replay)
}

// Says so where the report of what was found is another one.
fn hold_found(rt: HostRuntime, name: &[u8], found: Findings, wanted: &[u8]) {
    let mut room = [0u8; report::LONGEST];
    match report::write_report(found, &mut room) {
        Ok(n) => {
            if !is_same(front(&room, n), wanted) {
                say(rt, name, b": NOT the same when it is cut\n");
            }
        }
        Err(_) => {
            let _ = eprintln!(rt; "no room for the report");
        }
    }
}

fn is_bad(recording: &[u8]) -> bool {
    recording::judge(recording).is_err()
}

fn judged(rt: HostRuntime, name: &[u8], report: &[u8], wanted: &[u8]) {
    if is_same(report, wanted) {
        say(rt, name, b": as it must be\n");
        return;
    }
    say(rt, name, b": NOT as it must be, but\n");
    let _ = Write::write_all(&mut rt.stdout(), report);
}

// A line about an example. Nothing is said of a write that fails: the run is held to what it must write.
fn say(rt: HostRuntime, name: &[u8], line: &[u8]) {
    let _ = Write::write_all(&mut rt.stdout(), name);
    let _ = Write::write_all(&mut rt.stdout(), line);
}

fn is_same(a: &[u8], b: &[u8]) -> bool {
    a == b
}
