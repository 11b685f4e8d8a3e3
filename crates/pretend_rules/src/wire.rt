// The device's end of the line: where it stands, what is to be done, its waits and limits. It knows nothing of notes.
ghost use Rattle.std.specs.Prelude.{◌≡◌};
ghost use Rattle.pretend_rules.specs.Wire.{fresh_wire};

// Where the device stands: nothing begun; inside a command; 06h sent, and the answer's fields awaited; the answer sent, and not yet at its end.
#[derive(Clone, Copy)]
pub enum Stand {
    Idle,
    Reading,
    Awaiting,
    Sent,
}

// What changes with each byte and tick. Waits are counted down; where nothing is waited for, 0 is left.
#[derive(Clone, Copy)]
pub struct Wire {
    // Milliseconds left of the wait.
    pub left: u64,
    // Commands answered 06h.
    pub answered: u64,
    // Sendings of the answer.
    pub sendings: u32,
    // Bytes of a command gathered.
    pub gathered: usize,
    // Bytes of a command that are due before it is looked at: up to its code, and then all.
    pub span: usize,
    pub stand: Stand,
}

// What is to be done now.
#[derive(Clone, Copy)]
pub enum Act {
    Nothing,
    // Send 15h.
    Nak,
    // Send the answer again.
    Again,
    // The exchange is at its end.
    Finish,
}

#[derive(Clone, Copy)]
pub struct Turn {
    pub wire: Wire,
    pub act: Act,
}

// What a byte is: a byte of a command, to be kept in the gathering store; the last one, after which the command is judged; or no byte of a command, and what is
// to be done.
#[derive(Clone, Copy)]
pub enum Heard {
    Keep,
    Judge,
    Do(Act),
}

#[derive(Clone, Copy)]
pub struct Hearing {
    pub wire: Wire,
    pub heard: Heard,
}

impl Wire {
    // Waits, in milliseconds, and limits: document 02, Q-14.
    pub const FRAME: u64 = 200;

    pub const SILENCE: u64 = 5_050;

    pub const SENDINGS: u32 = 3;

    pub const COMMANDS: u64 = 1_000_000;

    pub const ROOM: usize = 21;

    pub const TICK: u32 = 1_000;

    // Nothing begun, nothing answered.
    pub fn fresh() -> Wire
        ensures { result ≡ fresh_wire }
    {
        Wire {
            left: 0,
            answered: 0,
            sendings: 0,
            gathered: 0,
            span: 0,
            stand: Stand::Idle,
        }
    }
}
