// The device's own account: notes that its caller said were paid or rejected, for each cassette.
ghost use Rattle.std.specs.Prelude.{◌≡◌};
ghost use Rattle.pretend_rules.specs.Tally.{fresh_tallies};

use exchange_rules::Notes;

// One cassette.
#[derive(Clone, Copy)]
pub struct Tally {
    pub paid: Notes,
    pub rejected: Notes,
}

// The two cassettes.
#[derive(Clone, Copy)]
pub struct Tallies {
    pub upper: Tally,
    pub lower: Tally,
}

impl Tallies {
    pub fn fresh() -> Tallies
        ensures { result ≡ fresh_tallies }
    {
        Tallies {
            upper: Tally {
                paid: Notes(0),
                rejected: Notes(0),
            },
            lower: Tally {
                paid: Notes(0),
                rejected: Notes(0),
            },
        }
    }
}
