// The calls that C and Rust make. Each over a lent session is thin: the step over a held session, whose outcome is stored.
ghost use Rattle.std.specs.Prelude.{◌≡◌, []};
ghost use Rattle.dispenser_rules.specs.Session.{fresh_session, session_request, session_byte, session_tick, session_clear};
ghost use Rattle.dispenser_link.specs.Held.{held, session_of, leaves, IsHeldAfter};

use crate::held::{Held, HeldOutcome, HeldReply, HeldSums, held_of, session_of, told};
use dispenser_rules::{Outcome, Session};

// The fresh session.
#[unsafe(no_mangle)]
pub extern "C" fn dispenser_fresh() -> Held
    ensures { result ≡ held fresh_session }
{
    held_of(Session::fresh())
}

// The upper cassette's sums.
#[unsafe(no_mangle)]
pub extern "C" fn dispenser_upper(session: Held) -> HeldSums
    ensures { result ≡ session.upper }
{
    session.upper
}

// The lower cassette's sums.
#[unsafe(no_mangle)]
pub extern "C" fn dispenser_lower(session: Held) -> HeldSums
    ensures { result ≡ session.lower }
{
    session.lower
}

fn kept(outcome: Outcome) -> HeldOutcome
    ensures { result ≡ leaves outcome }
{
    HeldOutcome {
        session: held_of(outcome.session),
        reply: told(outcome.reply),
    }
}

fn request(session: Held, code: u8, upper: u32, lower: u32, room: &mut [u8]) -> HeldOutcome
    ensures { IsHeldAfter result room.new (session_request (session_of session) code upper lower room.old) }
{
    kept(dispenser::request(session_of(session), code, upper, lower, room))
}

fn byte(session: Held, b: u8, room: &mut [u8]) -> HeldOutcome
    ensures { IsHeldAfter result room.new (session_byte (session_of session) b room.old) }
{
    kept(dispenser::byte(session_of(session), b, room))
}

fn tick(session: Held, ms: u32, room: &mut [u8]) -> HeldOutcome
    ensures { IsHeldAfter result room.new (session_tick (session_of session) ms room.old) }
{
    kept(dispenser::tick(session_of(session), ms, room))
}

fn clear(session: Held) -> HeldOutcome
    ensures { IsHeldAfter result [] (session_clear (session_of session)) }
{
    kept(dispenser::clear(session_of(session)))
}

// A request: a code, and the notes asked of each cassette (0 where none are).
#[unsafe(no_mangle)]
pub extern "C" fn dispenser_request(
    session: &mut Held,
    code: u8,
    upper: u32,
    lower: u32,
    room: &mut [u8],
) -> HeldReply
    ensures { IsHeldAfter (record { session = session.new; reply = result }) room.new (session_request (session_of session.old) code upper lower room.old) }
{
    let opened = request(*session, code, upper, lower, room);
    *session = opened.session;
    opened.reply
}

// A byte from the dispenser.
#[unsafe(no_mangle)]
pub extern "C" fn dispenser_byte(session: &mut Held, b: u8, room: &mut [u8]) -> HeldReply
    ensures { IsHeldAfter (record { session = session.new; reply = result }) room.new (session_byte (session_of session.old) b room.old) }
{
    let heard = byte(*session, b, room);
    *session = heard.session;
    heard.reply
}

// So many milliseconds pass.
#[unsafe(no_mangle)]
pub extern "C" fn dispenser_tick(session: &mut Held, ms: u32, room: &mut [u8]) -> HeldReply
    ensures { IsHeldAfter (record { session = session.new; reply = result }) room.new (session_tick (session_of session.old) ms room.old) }
{
    let passed = tick(*session, ms, room);
    *session = passed.session;
    passed.reply
}

// The operator clears the line.
#[unsafe(no_mangle)]
pub extern "C" fn dispenser_clear(session: &mut Held) -> HeldReply
    ensures { IsHeldAfter (record { session = session.new; reply = result }) [] (session_clear (session_of session.old)) }
{
    let cleared = clear(*session);
    *session = cleared.session;
    cleared.reply
}
