// The bench sheet of the four-cassette unit, run. A line of the file `stdin` that begins with session is so many calls, one that begins with write or read is tried, and each is
// written with what came of it; any other line is written as it stands. The file `stdout` has what the run must write, made from document 02, Q-3, and from 000, and not from a run.
#![tactic(auto)]

ghost use Rattle.std.specs.Prelude.{◌≤◌};

use calls::{Call, Kind};
use std::io;
use std::io::Write;
use vcdm_rules::{Outcome, Session};

mod calls;
mod frame_lines;
mod show;
mod words;

fn main(rt: HostRuntime) -> io::Result<()> {
    let mut store = [0u8; 65_536];
    let n = files::read_all(&mut rt.stdin(), &mut store)?;
    let mut out = rt.stdout();
    // One session goes through all the lines, from one start to the next.
    let mut session = Session::fresh();
    sheet::each_line(&store[..n], |line| {
        session = run(&mut out, line, session)?;
        Ok(())
    })
}

// Every call of a line, in turn.
fn run<W: Write>(out: &mut W, line: &[u8], session: Session) -> io::Result<Session> {
    let Some(kind) = calls::kind_of(out, line)? else {
        return Ok(session);
    };
    let size = sheet::size(line, words::ROOM);
    let mut now = begun(out, kind, session)?;
    for k in 0..calls::count(kind, line) {
        now = one(out, kind, calls::nth(kind, line, k), size, now)?;
    }
    Ok(now)
}

// What a line begins with: a fresh session, or the account printed.
fn begun<W: Write>(out: &mut W, kind: Kind, session: Session) -> io::Result<Session> {
    match kind {
        Kind::Starts => Ok(Session::fresh()),
        Kind::Account => {
            show::account(out, session)?;
            Ok(session)
        }
        _ => Ok(session),
    }
}

// Makes a call, and shows what it answered.
fn one<W: Write>(
    out: &mut W,
    kind: Kind,
    call: Call,
    size: usize,
    session: Session,
) -> io::Result<Session>
    requires { size ≤ 40 }
{
    let mut lent = sheet::fresh_room::<{ words::ROOM }>();
    let outcome = made(call, session, &mut lent[..size]);
    show::reply(out, kind, outcome.reply, &lent)?;
    Ok(outcome.session)
}

fn made(call: Call, session: Session, lent: &mut [u8]) -> Outcome {
    match call {
        Call::Request { code, counts } => vcdm::request(session, code, counts, lent),
        Call::Byte(b) => vcdm::byte(session, b, lent),
        Call::Tick(ms) => vcdm::tick(session, ms, lent),
    }
}
