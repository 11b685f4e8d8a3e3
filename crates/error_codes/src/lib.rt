// The error bytes of the Model 2000T: the 27 that are published, and what to tell the student about each. Document 01, "Dispenser frames"; document 02, Q-5.
#![tactic(auto)]

ghost use Rattle.std.specs.Prelude.{◌≡◌};
ghost use Rattle.error_codes.specs.Errors.{error_class};

// What an error byte means to the student.
#[derive(Clone, Copy)]
pub enum ErrorClass {
    Fine,
    OutOfNotes,
    NotSeated,
    Jam,
    CountInDoubt,
    OtherListed,
    Unlisted,
}

// A published code, and its class.
#[derive(Clone, Copy)]
pub struct Entry {
    pub code: u8,
    pub class: ErrorClass,
}

// Document 001, 2.5.1: 30h to 38h, 3Ah to 3Dh, 3Fh to 4Ah, 4Ch, 4Eh; the class of each by document 02, Q-5.
const PUBLISHED: [Entry; 27] = [
    Entry {
        code: 0x30,
        class: ErrorClass::Fine,
    },
    Entry {
        code: 0x31,
        class: ErrorClass::Fine,
    },
    Entry {
        code: 0x32,
        class: ErrorClass::OtherListed,
    },
    Entry {
        code: 0x33,
        class: ErrorClass::Jam,
    },
    Entry {
        code: 0x34,
        class: ErrorClass::OtherListed,
    },
    Entry {
        code: 0x35,
        class: ErrorClass::Jam,
    },
    Entry {
        code: 0x36,
        class: ErrorClass::Jam,
    },
    Entry {
        code: 0x37,
        class: ErrorClass::OtherListed,
    },
    Entry {
        code: 0x38,
        class: ErrorClass::OutOfNotes,
    },
    Entry {
        code: 0x3A,
        class: ErrorClass::CountInDoubt,
    },
    Entry {
        code: 0x3B,
        class: ErrorClass::OtherListed,
    },
    Entry {
        code: 0x3C,
        class: ErrorClass::CountInDoubt,
    },
    Entry {
        code: 0x3D,
        class: ErrorClass::CountInDoubt,
    },
    Entry {
        code: 0x3F,
        class: ErrorClass::NotSeated,
    },
    Entry {
        code: 0x40,
        class: ErrorClass::OutOfNotes,
    },
    Entry {
        code: 0x41,
        class: ErrorClass::OtherListed,
    },
    Entry {
        code: 0x42,
        class: ErrorClass::Jam,
    },
    Entry {
        code: 0x43,
        class: ErrorClass::OtherListed,
    },
    Entry {
        code: 0x44,
        class: ErrorClass::OtherListed,
    },
    Entry {
        code: 0x45,
        class: ErrorClass::NotSeated,
    },
    Entry {
        code: 0x46,
        class: ErrorClass::NotSeated,
    },
    Entry {
        code: 0x47,
        class: ErrorClass::OtherListed,
    },
    Entry {
        code: 0x48,
        class: ErrorClass::Jam,
    },
    Entry {
        code: 0x49,
        class: ErrorClass::OtherListed,
    },
    Entry {
        code: 0x4A,
        class: ErrorClass::OtherListed,
    },
    Entry {
        code: 0x4C,
        class: ErrorClass::Jam,
    },
    Entry {
        code: 0x4E,
        class: ErrorClass::Jam,
    },
];

// The class of an error byte. The first code of the list, 30h, is what nearly every answer has: it is tried before the list is gone through.
pub fn class_of(error: u8) -> ErrorClass
    ensures { result ≡ error_class error }
{
    let first = PUBLISHED[0];
    if first.code == error {
        return first.class;
    }
    searched(error)
}

fn searched(error: u8) -> ErrorClass
    ensures { result ≡ error_class error }
{
    for entry in &PUBLISHED {
        if entry.code == error {
            return entry.class;
        }
    }
    ErrorClass::Unlisted
}
