// The dispenser session lent to the call and changed in place, for whoever keeps it in one place (02, Q-6). Each call leaves what the call by value leaves.
#![tactic(auto)]

ghost use Rattle.std.specs.Prelude.{◌≡◌, []};
ghost use Rattle.dispenser_rules.specs.Session.{after, session_request, session_byte, session_tick, session_clear};

use dispenser_rules::{Reply, Session};

// A request: a code, and the notes asked of each cassette (0 where none are).
pub fn request(session: &mut Session, code: u8, upper: u32, lower: u32, room: &mut [u8]) -> Reply
    ensures { after (record { session = session.new; reply = result }) room.new ≡ session_request session.old code upper lower room.old }
{
    let opened = dispenser::request(*session, code, upper, lower, room);
    *session = opened.session;
    opened.reply
}

// A byte from the dispenser.
pub fn byte(session: &mut Session, b: u8, room: &mut [u8]) -> Reply
    ensures { after (record { session = session.new; reply = result }) room.new ≡ session_byte session.old b room.old }
{
    let heard = dispenser::byte(*session, b, room);
    *session = heard.session;
    heard.reply
}

// So many milliseconds pass.
pub fn tick(session: &mut Session, ms: u32, room: &mut [u8]) -> Reply
    ensures { after (record { session = session.new; reply = result }) room.new ≡ session_tick session.old ms room.old }
{
    let passed = dispenser::tick(*session, ms, room);
    *session = passed.session;
    passed.reply
}

// The operator clears the line. It is lent no room.
pub fn clear(session: &mut Session) -> Reply
    ensures { after (record { session = session.new; reply = result }) [] ≡ session_clear session.old }
{
    let cleared = dispenser::clear(*session);
    *session = cleared.session;
    cleared.reply
}
