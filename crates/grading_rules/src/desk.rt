// A replay that goes on: what the bytes fed so far left.
ghost use Rattle.std.specs.Prelude.{◌≡◌};
ghost use Rattle.grading_rules.specs.Replay.{fresh_desk};
ghost use Rattle.grading_rules.specs.Feeding.{fresh_replay};

use dispenser_rules::LastErrors;
use recording::Reader;

// Both sessions, the last error of each cassette, and the records so far: those declined, and all.
#[derive(Clone, Copy)]
pub struct Desk {
    pub dispenser: dispenser_rules::Session,
    pub validator: validator_rules::Session,
    pub errors: LastErrors,
    pub declined: u32,
    pub records: u32,
}

impl Desk {
    // Both fresh.
    pub fn fresh() -> Desk
        ensures { result ≡ fresh_desk }
    {
        Desk {
            dispenser: dispenser_rules::Session::fresh(),
            validator: validator_rules::Session::fresh(),
            errors: LastErrors::fresh(),
            declined: 0,
            records: 0,
        }
    }
}

// The desk, the reader of the record that is begun, and how many bytes were fed: the offset of the next one. Every number fits: a recording has at most 4,294,967,295
// bytes, a record at least one. After a fault the reader stays at it, and everything else is as it was at first.
#[derive(Clone, Copy)]
pub struct Replaying {
    pub desk: Desk,
    pub reader: Reader,
    pub fed: u32,
}

impl Replaying {
    // Nothing was fed.
    pub fn fresh() -> Replaying
        ensures { result ≡ fresh_replay }
    {
        Replaying {
            desk: Desk::fresh(),
            reader: Reader::fresh(),
            fed: 0,
        }
    }
}
