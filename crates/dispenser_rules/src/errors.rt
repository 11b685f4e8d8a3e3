// The last error of each cassette, for whoever reads the report. No sum depends on it.
ghost use Rattle.std.specs.Prelude.{◌≡◌};
ghost use Rattle.dispenser_rules.specs.Errors.{no_errors};

use error_codes::ErrorClass;

// Of each cassette none before any paying or test answer for it; then the class of the error byte of the last one.
#[derive(Clone, Copy)]
pub struct LastErrors {
    pub upper: Option<ErrorClass>,
    pub lower: Option<ErrorClass>,
}

impl LastErrors {
    pub fn fresh() -> LastErrors
        ensures { result ≡ no_errors }
    {
        LastErrors {
            upper: None,
            lower: None,
        }
    }
}
