// The account: the sums of the two cassettes, and the last paying requests.
ghost use Rattle.std.specs.Prelude.{◌≡◌};
ghost use Rattle.dispenser_rules.specs.Account.{fresh_cassettes};
ghost use Rattle.dispenser_rules.specs.Requests.{fresh_account};

use crate::requests::Requests;
use exchange_rules::Sums;

// The sums of the two cassettes.
#[derive(Clone, Copy)]
pub struct Cassettes {
    pub upper: Sums,
    pub lower: Sums,
}

#[derive(Clone, Copy)]
pub struct Account {
    pub cassettes: Cassettes,
    pub requests: Requests,
}

impl Cassettes {
    pub(crate) fn fresh() -> Cassettes
        ensures { result ≡ fresh_cassettes }
    {
        Cassettes {
            upper: Sums::fresh(),
            lower: Sums::fresh(),
        }
    }
}

impl Account {
    pub fn fresh() -> Account
        ensures { result ≡ fresh_account }
    {
        Account {
            cassettes: Cassettes::fresh(),
            requests: Requests::fresh(),
        }
    }
}
