// The lines of the bench sheet that a validator session takes, run. A line of the file `stdin` that begins with session is so many calls, and
// is written with what came of them; any other line is written as it stands. The file `stdout` has what the run must write, made from
// document 01 and not from a run.
#![tactic(auto)]

ghost use Rattle.std.specs.Prelude.{◌≤◌};

use calls::{Call, Kind};
use std::io;
use std::io::Write;
use validator_rules::{Outcome, Session};

mod calls;
mod show;

fn main(rt: HostRuntime) -> io::Result<()> {
    let mut store = [0u8; 65_536];
    let n = files::read_all(&mut rt.stdin(), &mut store)?;
    let mut out = rt.stdout();
    // One session goes through all the lines, from one start to the next.
    let mut session = Session::fresh();
    sheet::each_line(&store[..n], |line| {
        session = run(&mut out, line, session)?;
        Ok(())
    })
}

// A line: what it begins with, and every call of it in turn. A request's data are kept beside it.
fn run<W: Write>(out: &mut W, line: &[u8], session: Session) -> io::Result<Session> {
    let Some(kind) = calls::kind_of(out, line)? else {
        return Ok(session);
    };
    let mut data = [0u8; 16];
    let n = calls::data(kind, line, &mut data);
    let now = begun(out, kind, session)?;
    each_call(out, kind, line, &data[0..n], now)
}

fn each_call<W: Write>(
    out: &mut W,
    kind: Kind,
    line: &[u8],
    data: &[u8],
    session: Session,
) -> io::Result<Session> {
    let size = sheet::size(line, sheet::LONG);
    let mut now = session;
    for k in 0..calls::count(kind, line) {
        now = one(out, kind, calls::nth(kind, line, k), data, size, now)?;
    }
    Ok(now)
}

// What a line begins with: a fresh session, or what the session keeps printed.
fn begun<W: Write>(out: &mut W, kind: Kind, session: Session) -> io::Result<Session> {
    match kind {
        Kind::Starts => Ok(Session::fresh()),
        Kind::Kept => {
            show::kept(out, session)?;
            Ok(session)
        }
        _ => Ok(session),
    }
}

// Makes a call, and shows what it answered.
fn one<W: Write>(
    out: &mut W,
    kind: Kind,
    call: Call,
    data: &[u8],
    size: usize,
    session: Session,
) -> io::Result<Session>
    requires { size ≤ 300 }
{
    let mut lent = sheet::fresh_room::<{ sheet::LONG }>();
    let outcome = made(call, data, session, &mut lent[..size]);
    show::reply(out, kind, outcome.reply, &lent)?;
    Ok(outcome.session)
}

fn made(call: Call, data: &[u8], session: Session, lent: &mut [u8]) -> Outcome {
    match call {
        Call::Request(code) => validator::request(session, code, data, lent),
        Call::Byte(b) => validator::byte(session, b, lent),
        Call::Tick(ms) => validator::tick(session, ms, lent),
    }
}
