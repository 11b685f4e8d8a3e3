// The last 32 paying requests (document 02, Q-6), for whoever asks which payout went astray. No sum depends on them.
ghost use Rattle.std.specs.Prelude.{◌≡◌};
ghost use Rattle.dispenser_rules.specs.Requests.{fresh_requests};

use exchange_rules::Notes;

// How a request stands: it is open, or how it closed. An answer says how many notes were paid from each cassette.
#[derive(Clone, Copy)]
pub enum Standing {
    Open,
    Answered { upper: Notes, lower: Notes },
    Refused,
    Unknown,
}

// A request that is kept: its code, the notes asked of each cassette, how often it was handed over so far, and how it stands.
#[derive(Clone, Copy)]
pub struct KeptRequest {
    pub code: u8,
    pub upper: u32,
    pub lower: u32,
    pub handed: u32,
    pub standing: Standing,
}

// Where the next request is written, and how many are held.
#[derive(Clone, Copy)]
pub struct Place {
    pub next: usize,
    pub held: usize,
}

// The slots are a ring: the 33rd request is written over the oldest.
#[derive(Clone, Copy)]
pub struct Requests {
    pub place: Place,
    pub slots: [KeptRequest; 32],
}

// What a call writes down of a request, and in which slot; none, that is 32, where it writes nothing.
#[derive(Clone, Copy)]
pub struct Written {
    pub slot: usize,
    pub request: KeptRequest,
}

impl Requests {
    // So many are kept: document 02, Q-6.
    pub const MOST: usize = 32;

    pub fn fresh() -> Requests
        ensures { result ≡ fresh_requests }
    {
        let place = Place { next: 0, held: 0 };
        let none = KeptRequest {
            code: 0,
            upper: 0,
            lower: 0,
            handed: 0,
            standing: Standing::Open,
        };
        Requests {
            place,
            slots: [none; 32],
        }
    }
}
