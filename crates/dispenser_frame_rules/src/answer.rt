// What an answer says.
use error_codes::ErrorClass;

// Which cassette an answer speaks of.
#[derive(Clone, Copy)]
pub enum Cassette {
    Upper,
    Lower,
}

// An answer of the dispenser, with the values of its fields: counts as numbers; error, state and sensors as their bytes.
#[derive(Clone, Copy)]
pub enum Answer {
    Purged {
        error: u8,
    },
    PaidOne {
        cassette: Cassette,
        chk: u32,
        exit: u32,
        error: u8,
        state: u8,
        rejects: u32,
    },
    PaidBoth {
        upper_chk: u32,
        upper_exit: u32,
        lower_chk: u32,
        lower_exit: u32,
        error: u8,
        upper_state: u8,
        lower_state: u8,
        upper_rejects: u32,
        lower_rejects: u32,
    },
    Tested {
        cassette: Cassette,
        chk: u32,
        error: u8,
        state: u8,
        rejects: u32,
    },
    Status {
        error: u8,
        sensor0: u8,
        sensor1: u8,
    },
}

// An answer, and beside it the class of its error byte.
#[derive(Clone, Copy)]
pub struct Classed {
    pub answer: Answer,
    pub class: ErrorClass,
}
