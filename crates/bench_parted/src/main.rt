// The bench sheet, the lines about two recordings. For each line `pair STUDENT REFERENCE` of standard input, two recordings of at most 200 bytes in hex without blanks, `-` for an
// empty one, it writes the lines that tell where they part; any other line it writes as it stands. The file `stdout` has what the run must write, made from documents 01 and
// 02 and by the second implementation, and not from a run.
#![tactic(auto)]

mod words;

use std::io;
use std::io::Write;

// One byte more than a sheet may have, so that one that is too long shows.
const ROOM: usize = 262_145;

fn main(rt: HostRuntime) -> io::Result<()> {
    let mut store = [0u8; ROOM];
    let over = b"standard input: over 262,144 bytes\n";
    let Some(n) = files::read_sheet(&mut rt.stdin(), &mut rt.stderr(), over, &mut store)? else {
        return Ok(());
    };
    let mut out = rt.stdout();
    sheet::each_line(&store[..n], |line| one(&mut out, line))
}

fn one<W: Write>(out: &mut W, line: &[u8]) -> io::Result<()> {
    if sheet::letter(line, 0) == b'p' {
        pair(out, line)
    } else {
        sheet::print_text(out, line)
    }
}

fn pair<W: Write>(out: &mut W, line: &[u8]) -> io::Result<()> {
    let mut student = [0u8; words::MOST];
    let mut reference = [0u8; words::MOST];
    let first = sheet::past(line, 0, b' ');
    let second = sheet::past(line, first, b' ');
    let n = words::put_bytes(&line[first..], &mut student);
    let m = words::put_bytes(&line[second..], &mut reference);
    print(out, &student[0..n], &reference[0..m])
}

fn print<W: Write>(out: &mut W, student: &[u8], reference: &[u8]) -> io::Result<()> {
    let found = parted::parting(student, reference);
    sheet_parted::print_parted(out, found, student, reference, found.at, found.records)
}
