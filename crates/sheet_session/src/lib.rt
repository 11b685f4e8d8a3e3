// A call on a dispenser session, for the programs of the bench that make calls as a line tells them.
#![tactic(auto)]

ghost use Rattle.std.specs.Prelude.{◌≡◌};
ghost use Rattle.sheet_session.specs.Made.{made, left};

use dispenser_rules::{Outcome, Session};

#[derive(Clone, Copy)]
pub enum Call {
    Request { code: u8, upper: u32, lower: u32 },
    Byte(u8),
    Tick(u32),
    Clear,
}

// Makes a call. Clear is lent no room.
#[tactic(auto)]
pub fn made(call: Call, session: Session, lent: &mut [u8]) -> Outcome
    ensures { left call result lent.new ≡ made session call lent.old }
{
    match call {
        Call::Request { code, upper, lower } => {
            dispenser::request(session, code, upper, lower, lent)
        }
        Call::Byte(b) => dispenser::byte(session, b, lent),
        Call::Tick(ms) => dispenser::tick(session, ms, lent),
        Call::Clear => dispenser::clear(session),
    }
}
