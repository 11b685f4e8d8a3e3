// The device's types, its waits and limits.
ghost use Rattle.std.specs.Prelude.{◌≡◌};
ghost use Rattle.pretend_rules.specs.Device.{fresh_device};

use crate::tally::Tallies;
use crate::wire::Wire;
use dispenser_frame_rules::Answer;

// What came of a call, beside the bytes that it put.
#[derive(Clone, Copy)]
pub enum Happening {
    Nothing,
    // A command was taken, and answered 06h: its code, and the notes asked of each cassette.
    Taken { code: u8, upper: u32, lower: u32 },
    // The exchange is at its end: the host's 06h came, or the third sending was in vain.
    Ended,
}

// What a call answers: why it was declined, or how many bytes it put at the room's start and what came of it.
pub type Reply = refusals::Reply<Happening>;

// What a byte, a tick or a telling leaves.
#[derive(Clone, Copy)]
pub struct Step {
    pub wire: Wire,
    pub reply: Reply,
}

// The device: the wire, the code of the command in hand, its answer (to be sent again), its own account and the gathering store.
#[derive(Clone, Copy)]
pub struct Device {
    pub wire: Wire,
    pub code: u8,
    pub answer: Answer,
    pub tallies: Tallies,
    pub store: [u8; 10],
}

// What a call by value leaves.
#[derive(Clone, Copy)]
pub struct Outcome {
    pub device: Device,
    pub reply: Reply,
}

impl Device {
    // Waits, in milliseconds, and limits: those of its wire. Document 02, Q-14.
    pub const FRAME: u64 = Wire::FRAME;

    pub const SILENCE: u64 = Wire::SILENCE;

    pub const SENDINGS: u32 = Wire::SENDINGS;

    pub const COMMANDS: u64 = Wire::COMMANDS;

    pub const ROOM: usize = Wire::ROOM;

    pub const TICK: u32 = Wire::TICK;

    // Nothing begun, nothing answered, nothing paid.
    pub fn fresh() -> Device
        ensures { result ≡ fresh_device }
    {
        Device {
            wire: Wire::fresh(),
            code: 0,
            answer: Answer::Purged { error: 0 },
            tallies: Tallies::fresh(),
            store: [0; 10],
        }
    }
}
