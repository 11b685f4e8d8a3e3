// The lines of the bench sheet that a dispenser session takes, run. A line of the file `stdin` that begins with session is so many calls, and
// is written with what came of them; any other line is written as it stands. The file `stdout` has what the run must write, made from
// documents 01 and 02 and not from a run.
#![tactic(auto)]

ghost use Rattle.std.specs.Prelude.{◌≤◌};

use calls::Kind;
use dispenser_rules::Session;
use sheet_session::Call;
use std::io;
use std::io::Write;

mod calls;
mod show;

fn main(rt: HostRuntime) -> io::Result<()> {
    let mut store = [0u8; 65_536];
    let n = files::read_all(&mut rt.stdin(), &mut store)?;
    let mut out = rt.stdout();
    // One session goes through all the lines, from one start to the next.
    let mut session = Session::fresh();
    sheet::each_line(&store[..n], |line| {
        session = run(&mut out, line, session)?;
        Ok(())
    })
}

// Every call of a line, in turn.
fn run<W: Write>(out: &mut W, line: &[u8], session: Session) -> io::Result<Session> {
    let Some(kind) = calls::kind_of(out, line)? else {
        return Ok(session);
    };
    let size = sheet::size(line, sheet::SHORT);
    let mut now = begun(out, kind, session)?;
    for k in 0..calls::count(kind, line) {
        now = one(out, kind, calls::nth(kind, line, k), size, now)?;
    }
    Ok(now)
}

// What a line begins with: a fresh session, or the account printed.
fn begun<W: Write>(out: &mut W, kind: Kind, session: Session) -> io::Result<Session> {
    match kind {
        Kind::Starts => Ok(Session::fresh()),
        Kind::Account => {
            show::account(out, session)?;
            Ok(session)
        }
        _ => Ok(session),
    }
}

// Makes a call, and shows what it answered.
fn one<W: Write>(
    out: &mut W,
    kind: Kind,
    call: Call,
    size: usize,
    session: Session,
) -> io::Result<Session>
    requires { size ≤ 24 }
{
    let mut lent = sheet::fresh_room::<{ sheet::SHORT }>();
    let outcome = sheet_session::made(call, session, &mut lent[..size]);
    show::reply(out, kind, outcome.reply, &lent)?;
    Ok(outcome.session)
}
