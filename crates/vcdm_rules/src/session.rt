// The session's types, its waits and limits.
ghost use Rattle.std.specs.Prelude.{◌≡◌};
ghost use Rattle.vcdm_rules.specs.Session.{fresh_session};

use crate::account::Account;
use exchange_rules::Line;
use vcdm_frame_rules::{Answer, Counts, FIRST_SERIAL};

// The command that is open, or was last: its code, the notes asked of each cassette (0 where none are), its serial (0 where it has none), and the length of its
// answer.
#[derive(Clone, Copy)]
pub struct Asked {
    pub code: u8,
    pub counts: Counts,
    pub serial: u8,
    pub span: usize,
}

// What an answer is to the command that is open: another command's or another dispense's; its answer; or an answer which says that the serial was repeated, so that
// nothing was paid by this request.
#[derive(Clone, Copy)]
pub enum Finding {
    Bad,
    Good,
    Void,
}

// How a call closed the open command, if it did.
#[derive(Clone, Copy)]
pub enum Closing {
    Nothing,
    // With the answer that was read.
    Answered(Answer),
    Refused,
    Unknown,
}

// What a call answers: why it was declined, or how many bytes it put at the room's start and which closing it made.
pub type Reply = refusals::Reply<Closing>;

// What a byte or a tick leaves.
pub type Step = exchange_rules::Step<Closing>;

// What a request leaves.
#[derive(Clone, Copy)]
pub struct Opening {
    pub line: Line,
    pub asked: Asked,
    pub serial: u8,
    pub reply: Reply,
}

// The session: the line, the command, the account, the gathering store, and the serial that the next dispense takes.
#[derive(Clone, Copy)]
pub struct Session {
    pub line: Line,
    pub asked: Asked,
    pub account: Account,
    pub store: [u8; 30],
    pub serial: u8,
}

// What a call by value leaves.
pub type Outcome = refusals::Outcome<Session, Closing>;

impl Session {
    // Waits, in milliseconds, and limits: those of the line, which every unit has. Document 01, "The dispenser session".
    pub const QUIET: u64 = Line::QUIET;

    pub const LONG_QUIET: u64 = Line::LONG_QUIET;

    pub const FIRST_BYTE: u64 = Line::FIRST_BYTE;

    pub const ANSWER: u64 = Line::ANSWER;

    pub const AFTER_NAK: u64 = Line::AFTER_NAK;

    pub const FRAME: u64 = Line::FRAME;

    pub const HAND_OVERS: u32 = Line::HAND_OVERS;

    pub const NAKS: u32 = Line::NAKS;

    pub const COMMANDS: u64 = Line::COMMANDS;

    pub const ROOM: usize = Line::ROOM;

    pub const TICK: u32 = Line::TICK;

    // "Reset leaves the line unready for 2,000 ms more quiet." Document 02, Q-3.
    pub const AFTER_RESET: u64 = 2_000;

    // Zero sums, nothing open, zero quiet time; the first dispense takes 21h.
    pub fn fresh() -> Session
        ensures { result ≡ fresh_session }
    {
        let counts = Counts {
            top: 0,
            second: 0,
            third: 0,
            bottom: 0,
        };
        Session {
            line: Line::fresh(),
            asked: Asked {
                code: 0,
                counts,
                serial: 0,
                span: 0,
            },
            account: Account::fresh(),
            store: [0; 30],
            serial: FIRST_SERIAL,
        }
    }
}
