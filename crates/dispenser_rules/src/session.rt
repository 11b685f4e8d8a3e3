// The session's types, its waits and limits.
ghost use Rattle.std.specs.Prelude.{◌≡◌};
ghost use Rattle.dispenser_rules.specs.Session.{fresh_session};

use crate::account::Account;
use dispenser_frame_rules::Answer;
use error_codes::ErrorClass;
use exchange_rules::Line;

// The command that is open, or was last: its code, the notes asked of each cassette (0 where none are), and the length of its answer.
#[derive(Clone, Copy)]
pub struct Asked {
    pub code: u8,
    pub upper: u32,
    pub lower: u32,
    pub span: usize,
}

// How a call closed the open command, if it did.
#[derive(Clone, Copy)]
pub enum Closing {
    Nothing,
    // With the answer that was read, and the class of its error byte.
    Answered(Answer, ErrorClass),
    Refused,
    Unknown,
}

// What a call answers: why it was declined, or how many bytes it put at the room's start and which closing it made.
pub type Reply = refusals::Reply<Closing>;

// What a byte or a tick leaves.
pub type Step = exchange_rules::Step<Closing>;

// What a request leaves.
#[derive(Clone, Copy)]
pub struct Opening {
    pub line: Line,
    pub asked: Asked,
    pub reply: Reply,
}

// The session: the line, the command, the account and the gathering store.
#[derive(Clone, Copy)]
pub struct Session {
    pub line: Line,
    pub asked: Asked,
    pub account: Account,
    pub store: [u8; 21],
}

// What a call by value leaves.
pub type Outcome = refusals::Outcome<Session, Closing>;

impl Session {
    // Waits, in milliseconds, and limits: those of the line, which every unit has. Document 01, "The dispenser session".
    pub const QUIET: u64 = Line::QUIET;

    pub const LONG_QUIET: u64 = Line::LONG_QUIET;

    pub const FIRST_BYTE: u64 = Line::FIRST_BYTE;

    pub const ANSWER: u64 = Line::ANSWER;

    pub const AFTER_NAK: u64 = Line::AFTER_NAK;

    pub const FRAME: u64 = Line::FRAME;

    pub const HAND_OVERS: u32 = Line::HAND_OVERS;

    pub const NAKS: u32 = Line::NAKS;

    pub const COMMANDS: u64 = Line::COMMANDS;

    pub const DOUBTS: u32 = Line::DOUBTS;

    pub const ROOM: usize = Line::ROOM;

    pub const TICK: u32 = Line::TICK;

    // Zero sums, nothing open, zero quiet time.
    pub fn fresh() -> Session
        ensures { result ≡ fresh_session }
    {
        Session {
            line: Line::fresh(),
            asked: Asked {
                code: 0,
                upper: 0,
                lower: 0,
                span: 0,
            },
            account: Account::fresh(),
            store: [0; 21],
        }
    }
}
