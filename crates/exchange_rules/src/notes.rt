// Notes, and the sums of a cassette. They know nothing of bytes.
ghost use Rattle.std.specs.Prelude.{◌≡◌};
ghost use Rattle.exchange_rules.specs.Sums.{fresh_sums};

// A number of notes paid out. Bills taken in are another type, so that no sum can mix the two.
#[derive(Clone, Copy)]
pub struct Notes(pub u32);

// The sums of one cassette. Notes asked and notes paid over the asking are, together, those paid, short, refused, unknown and pending
// (still open); rejected notes stand apart.
#[derive(Clone, Copy)]
pub struct Sums {
    pub asked: Notes,
    pub paid: Notes,
    pub short: Notes,
    pub over: Notes,
    pub refused: Notes,
    pub unknown: Notes,
    pub pending: Notes,
    pub rejected: Notes,
}

impl Sums {
    pub fn fresh() -> Sums
        ensures { result ≡ fresh_sums }
    {
        Sums {
            asked: Notes(0),
            paid: Notes(0),
            short: Notes(0),
            over: Notes(0),
            refused: Notes(0),
            unknown: Notes(0),
            pending: Notes(0),
            rejected: Notes(0),
        }
    }
}
