// The account of the four cassettes.
ghost use Rattle.std.specs.Prelude.{◌≡◌};
ghost use Rattle.vcdm_rules.specs.Account.{fresh_account};

use exchange_rules::Sums;

#[derive(Clone, Copy)]
pub struct Account {
    pub top: Sums,
    pub second: Sums,
    pub third: Sums,
    pub bottom: Sums,
}

impl Account {
    pub(crate) fn fresh() -> Account
        ensures { result ≡ fresh_account }
    {
        Account {
            top: Sums::fresh(),
            second: Sums::fresh(),
            third: Sums::fresh(),
            bottom: Sums::fresh(),
        }
    }
}
