// What a call answers where it does not do its step: document 01's numbers, each with its sentence, and the enums that many calls answer with.
#![tactic(auto)]

ghost use Rattle.std.specs.Prelude.{◌≡◌};
ghost use Rattle.refusals.specs.Numbers.{refusal_number, declined_number};

// Room lent for sending is under 16 bytes (dispenser session), 255 (validator session), or the frame's, record's or report's own length (plain writer).
pub const ROOM: u8 = 1;

// A code to send is not in the dispenser table or, in a validator session, not among its commands, or a count, address, length or field is outside its range, including a count or data given where none belongs.
pub const RANGE: u8 = 2;

// A command is open on this line.
pub const OPEN: u8 = 3;

// The line has not been quiet long enough.
pub const UNQUIET: u8 = 4;

// This line has accepted 1,000,000 commands.
pub const SPENT: u8 = 5;

// A tick is not 1 to 1,000 ms.
pub const TICK: u8 = 6;

// Two paying commands in succession closed unknown, and the operator has not cleared the line since (document 02, Q-9).
pub const STOPPED: u8 = 7;

// No such payout (document 02, Q-10).
pub const PAYOUT: u8 = 8;

// The answer's fields are told to a pretend dispenser when none are awaited (document 02, Q-14).
pub const UNAWAITED: u8 = 9;

// Frame length is wrong.
pub const LENGTH: u8 = 11;

// A fixed opening byte or the address is wrong.
pub const OPENING: u8 = 12;

// Code not in the table.
pub const CODE: u8 = 13;

// Closing 03h is missing.
pub const CLOSING: u8 = 14;

// Check is wrong.
pub const CHECK: u8 = 15;

// A field is outside its range.
pub const FIELD: u8 = 16;

// Recording: bad number.
pub const NUMBER: u8 = 21;

// Recording: cut short.
pub const CUT: u8 = 22;

// Recording: unknown kind or value.
pub const UNKNOWN: u8 = 23;

// Recording: over 65,536 bytes.
pub const LONG: u8 = 24;

// Why a plain writer refuses.
#[derive(Clone, Copy, Debug, PartialEq, Eq)]
pub enum Refusal {
    // The room lent is under the length of what is to be written.
    Room,
    // A code, count, address, length or field is outside its range.
    Range,
}

impl Refusal {
    // Document 01's number. A method and no `From`: `why.number()` says more at a call than `u8::from(why)`, here and at the other enums of refusals.
    pub fn number(self) -> u8
        ensures { result ≡ refusal_number self }
    {
        match self {
            Refusal::Room => ROOM,
            Refusal::Range => RANGE,
        }
    }
}

// What a plain writer answers: how many bytes it put at the room's start, or why it put none.
pub type Put = Result<usize, Refusal>;

// Why a call on a line is declined.
#[derive(Clone, Copy, Debug, PartialEq, Eq)]
pub enum Declined {
    // The room lent for sending is too small.
    Room,
    // The code is not among the line's commands, or a count or data are not what belongs to it.
    Range,
    // A command is open.
    Open,
    // The line has not been quiet long enough.
    Unquiet,
    // As many commands were accepted as may be.
    Spent,
    // A tick is not 1 to 1,000 ms.
    Tick,
    // Two paying commands in succession closed unknown, and the line has not been cleared.
    Stopped,
    // No answer's fields are awaited.
    Unawaited,
}

impl Declined {
    // Document 01's number.
    pub fn number(self) -> u8
        ensures { result ≡ declined_number self }
    {
        match self {
            Declined::Room => ROOM,
            Declined::Range => RANGE,
            Declined::Open => OPEN,
            Declined::Unquiet => UNQUIET,
            Declined::Spent => SPENT,
            Declined::Tick => TICK,
            Declined::Stopped => STOPPED,
            Declined::Unawaited => UNAWAITED,
        }
    }
}

// What a call on a line did: how many bytes it put at the room's start, and what came of it, as the closing of the open command.
#[derive(Clone, Copy)]
pub struct Done<C> {
    pub put: usize,
    pub closing: C,
}

// What a call on a line answers: what it did, or why it was declined.
pub type Reply<C> = Result<Done<C>, Declined>;

// What a call by value leaves: the session, and what it answers.
#[derive(Clone, Copy)]
pub struct Outcome<S, C> {
    pub session: S,
    pub reply: Reply<C>,
}
