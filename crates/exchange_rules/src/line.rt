// The line between host and dispenser: where it stands, what is to be done, its waits and limits. It knows nothing of notes.
ghost use Rattle.std.specs.Prelude.{◌≡◌};
ghost use Rattle.exchange_rules.specs.Exchange.{fresh_line};

// Where the line stands: nothing open; waiting for the first byte since a hand-over; for an answer to start; inside an answer.
#[derive(Clone, Copy, PartialEq, Eq)]
pub enum Phase {
    Idle,
    First,
    Start,
    Inside,
}

// What changes with each byte and tick. Waits are counted down, idle too: 0 is a line that has been quiet long enough.
#[derive(Clone, Copy)]
pub struct Line {
    // Milliseconds left of the wait, or of the quiet that the next command needs.
    pub left: u64,
    // The quiet that the next command needs.
    pub quiet: u64,
    // Commands accepted.
    pub accepted: u64,
    // Hand-overs of the open command.
    pub handed: u32,
    // 15h that we sent for the open command.
    pub naks: u32,
    // Bytes of an answer gathered.
    pub gathered: usize,
    // Paying commands that closed unknown in succession, up to the two that stop the line.
    pub doubts: u32,
    pub phase: Phase,
}

// What is to be done now.
#[derive(Clone, Copy)]
pub enum Todo {
    Nothing,
    HandOver,
    // Send 15h.
    Nak,
    // Send 15h, and close as unknown.
    LastNak,
    // Close as refused.
    CloseRefused,
    // Close as unknown.
    CloseUnknown,
}

#[derive(Clone, Copy)]
pub struct Turn {
    pub line: Line,
    pub todo: Todo,
}

// What a byte is: a byte of an answer, to be kept in the gathering store; the last one, after which the frame is judged; or no byte of an answer, and what is
// to be done.
#[derive(Clone, Copy)]
pub enum Heard {
    Keep,
    Judge,
    Do(Todo),
}

#[derive(Clone, Copy)]
pub struct Hearing {
    pub line: Line,
    pub heard: Heard,
}

impl Line {
    // Waits, in milliseconds, and limits, the same for every unit: document 01, "The dispenser session".
    pub const QUIET: u64 = 5_200;

    pub const LONG_QUIET: u64 = 95_200;

    pub const FIRST_BYTE: u64 = 5_050;

    pub const ANSWER: u64 = 90_000;

    pub const AFTER_NAK: u64 = 5_050;

    pub const FRAME: u64 = 200;

    pub const HAND_OVERS: u32 = 4;

    pub const NAKS: u32 = 3;

    pub const COMMANDS: u64 = 1_000_000;

    pub const DOUBTS: u32 = 2;

    pub const ROOM: usize = 16;

    pub const TICK: u32 = 1_000;

    // Nothing open, and no quiet yet.
    pub fn fresh() -> Line
        ensures { result ≡ fresh_line }
    {
        Line {
            left: Line::QUIET,
            quiet: Line::QUIET,
            accepted: 0,
            handed: 0,
            naks: 0,
            gathered: 0,
            doubts: 0,
            phase: Phase::Idle,
        }
    }
}
