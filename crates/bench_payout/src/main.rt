// Which notes make the sum: the program of the command ./payout. With arguments, an amount and then VALUE:STOCK for each cassette, it writes the plan for
// them. Without, it reads a sheet from standard input: for each line that begins with a digit and gives the same words it writes the plan, on one line, and it writes
// any other line as it stands. A word that is no number gets one line on standard error, and no plan.
#![tactic(auto)]

mod plan;
mod words;

use std::env::Env;
use std::io;
use std::io::Write;
use words::Asked;

// One byte more than a sheet may have, so that one that is too long shows.
const ROOM: usize = 65_537;

fn main(rt: HostRuntime) -> io::Result<()> {
    let mut out = rt.stdout();
    let mut says = rt.stderr();
    let count = files::arg_count(&rt);
    if 2 <= count {
        return arguments(&rt, &mut out, &mut says, count - 1);
    }
    let mut store = [0u8; ROOM];
    let over = b"standard input: over 65,536 bytes\n";
    let Some(n) = files::read_sheet(&mut rt.stdin(), &mut says, over, &mut store)? else {
        return Ok(());
    };
    sheet::each_line(&store[..n], |line| one(&mut out, &mut says, line))
}

// The plan for so many arguments, behind the program's own name.
fn arguments<E: Env, W: Write, D: Write>(
    env: &E,
    out: &mut W,
    says: &mut D,
    count: usize,
) -> io::Result<()> {
    let mut asked = Asked::nothing();
    for i in 1..=count {
        if !argument(env, says, i, &mut asked)? {
            return Ok(());
        }
    }
    plan::print(out, &asked, b"\n")
}

// Keeps what an argument says, or answers false where it is no number.
fn argument<E: Env, D: Write>(
    env: &E,
    says: &mut D,
    i: usize,
    asked: &mut Asked,
) -> io::Result<bool> {
    let mut word = [0u8; 4_096];
    let Ok(n) = files::arg(env, i, &mut word) else {
        says.write_all(b"an argument over 4,096 bytes: no number\n")?;
        return Ok(false);
    };
    asked.keep(says, &word[..n])
}

fn one<W: Write, D: Write>(out: &mut W, says: &mut D, line: &[u8]) -> io::Result<()> {
    if sheet::letter(line, 0).is_ascii_digit() {
        print_asked(out, says, words::without(line, b"\n"))
    } else {
        sheet::print_text(out, line)
    }
}

// The plan for the words of a line.
fn print_asked<W: Write, D: Write>(out: &mut W, says: &mut D, line: &[u8]) -> io::Result<()> {
    let mut asked = Asked::nothing();
    for word in line.split_inclusive(|b| *b == b' ') {
        if !asked.keep(says, words::without(word, b" "))? {
            return Ok(());
        }
    }
    plan::print(out, &asked, b" ")
}
