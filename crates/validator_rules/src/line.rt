// The line: where it stands, and what it says is to be done.

// Where the line stands: nothing open; waiting for an answer to start; inside an answer.
#[derive(Clone, Copy)]
pub enum Phase {
    Idle,
    Start,
    Inside,
}

// What changes with each byte and tick. Waits are counted down, idle too: 0 is a line that has been quiet long enough.
#[derive(Clone, Copy)]
pub struct Line {
    // Milliseconds left of the wait, or of the quiet that the next command needs.
    pub left: u64,
    // Commands accepted.
    pub accepted: u64,
    // The code of the command that is open, or was last.
    pub code: u64,
    // The bill type that the last listed answer to a POLL said was stacked; none where it said something else or there was no such answer.
    pub last: Option<usize>,
    // Bytes of an answer gathered.
    pub gathered: usize,
    // The length of the answer: how many bytes it has, once its length byte has told; until then the most that it can have.
    pub length: usize,
    pub phase: Phase,
}

// What is to be done when time has passed.
#[derive(Clone, Copy)]
pub enum Todo {
    Nothing,
    // Send NAK, and close as damaged.
    CloseDamaged,
    // Close as silent.
    CloseSilent,
}

#[derive(Clone, Copy)]
pub struct Turn {
    pub line: Line,
    pub todo: Todo,
}

// What a byte is. One enum without data, and not one that holds a `Todo`: that would cost a replay of polls a fifth of its time.
#[derive(Clone, Copy)]
pub enum Heard {
    // No byte of an answer.
    Skip,
    // A byte of an answer, to be kept in the gathering store.
    Keep,
    // The last one: it is kept, and the frame is judged.
    Judge,
    // A wrong address or length byte: send NAK, and close as damaged.
    Wrong,
}

#[derive(Clone, Copy)]
pub struct Hearing {
    pub line: Line,
    pub heard: Heard,
}
