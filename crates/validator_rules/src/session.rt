// The session: what it keeps, what a call leaves, its waits and limits, and the fresh one.
ghost use Rattle.std.specs.Prelude.{◌≡◌};
ghost use Rattle.validator_rules.specs.Session.{fresh_session};

use crate::bills::Bills;
use crate::line::{Line, Phase};
use ccnet_class::Class;

// How a call closed the open command, if it did.
#[derive(Clone, Copy)]
pub enum Closing {
    Nothing,
    // By ACK.
    Acknowledged,
    // By NAK.
    NotAcknowledged,
    IllegalCommand,
    // With what the answer's body says.
    Answered(Class),
    Damaged,
    Silent,
}

// What a call answers: why it was declined, or how many bytes it put at the room's start and which closing it made.
pub type Reply = refusals::Reply<Closing>;

// What a step leaves.
#[derive(Clone, Copy)]
pub struct Step {
    pub line: Line,
    // The type of the bill that it credits, if it credits one.
    pub bill: Option<usize>,
    pub reply: Reply,
}

// The session: the line, the bills of each type, the gathering store and the last bill table read.
#[derive(Clone, Copy)]
pub struct Session {
    pub line: Line,
    pub bills: [Bills; 24],
    pub store: [u8; 255],
    // Its 120 bytes, all zero before the first; `bill_table` says what its words mean.
    pub table: [u8; 120],
}

// What a call by value leaves.
pub type Outcome = refusals::Outcome<Session, Closing>;

impl Session {
    // Waits, in milliseconds, and limits: document 01, "The validator session".
    pub const QUIET: u64 = 20;

    pub const START: u64 = 10;

    pub const FRAME: u64 = 400;

    pub const COMMANDS: u64 = 1_000_000;

    pub const ROOM: usize = 255;

    pub const STORE: usize = 255;

    pub const TYPES: usize = 24;

    pub const TICK: u32 = 1_000;

    // No bills, nothing open, zero quiet time, nothing gathered, nothing remembered, no bill table.
    pub fn fresh() -> Session
        ensures { result ≡ fresh_session }
    {
        Session {
            line: Line {
                left: Session::QUIET,
                accepted: 0,
                code: 0,
                last: None,
                gathered: 0,
                length: 0,
                phase: Phase::Idle,
            },
            bills: [Bills(0); 24],
            store: [0; 255],
            table: [0; 120],
        }
    }
}
