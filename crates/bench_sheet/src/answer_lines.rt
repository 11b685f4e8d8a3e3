// Lines about answers.
//
//     write answer, room 24: 44h error 30h
//     write answer, room 24: 45h CHK 10 EXIT 10 error 30h state 30h rejects 0
//     write answer, room 24: 46h error 30h sensor 0 80h sensor 1 00h
//     write answer, room 24: 56h upper CHK 1 EXIT 1 lower CHK 1 EXIT 1 error 30h upper state 30h lower state 30h upper rejects 0 lower
//     rejects 0
//     write answer, room 24: 76h CHK 10 error 30h state 30h rejects 0
//     read answer, five bytes: 01 50 02 44 30
//     count bytes of the answer to 44h
//     count listed error bytes
use dispenser_frame_rules::{Answer, Cassette};
use error_codes::ErrorClass;
use std::io;
use std::io::Write;

// The answer that a line gives, with its fields in 01's order.
pub(crate) fn given(line: &[u8]) -> Answer {
    match sheet::byte(line, 4) {
        0x44 => Answer::Purged {
            error: sheet::byte(line, 6),
        },
        0x45 => paid(line, Cassette::Upper),
        0x55 => paid(line, Cassette::Lower),
        0x56 => paid_both(line),
        0x76 => tested(line, Cassette::Upper),
        0x77 => tested(line, Cassette::Lower),
        _ => Answer::Status {
            error: sheet::byte(line, 6),
            sensor0: sheet::byte(line, 9),
            sensor1: sheet::byte(line, 12),
        },
    }
}

fn paid(line: &[u8], cassette: Cassette) -> Answer {
    Answer::PaidOne {
        cassette,
        chk: sheet::number(line, 6),
        exit: sheet::number(line, 8),
        error: sheet::byte(line, 10),
        state: sheet::byte(line, 12),
        rejects: sheet::number(line, 14),
    }
}

fn paid_both(line: &[u8]) -> Answer {
    Answer::PaidBoth {
        upper_chk: sheet::number(line, 7),
        upper_exit: sheet::number(line, 9),
        lower_chk: sheet::number(line, 12),
        lower_exit: sheet::number(line, 14),
        error: sheet::byte(line, 16),
        upper_state: sheet::byte(line, 19),
        lower_state: sheet::byte(line, 22),
        upper_rejects: sheet::number(line, 25),
        lower_rejects: sheet::number(line, 28),
    }
}

fn tested(line: &[u8], cassette: Cassette) -> Answer {
    Answer::Tested {
        cassette,
        chk: sheet::number(line, 6),
        error: sheet::byte(line, 8),
        state: sheet::byte(line, 10),
        rejects: sheet::number(line, 12),
    }
}

// What reading an answer finds.
pub(crate) fn found<W: Write>(out: &mut W, s: &[u8]) -> io::Result<()> {
    match dispenser_frame::read_answer(s) {
        Ok(read) => {
            sheet::print_text(out, b" reads as")?;
            sheet_answer::print_read(out, read.answer, read.class)
        }
        Err(why) => sheet::print_fault(out, why.number()),
    }
}

// How many of the 256 bytes are listed as errors.
pub(crate) fn listed_bytes() -> usize {
    (0..=255)
        .filter(|b| !matches!(error_codes::class_of(*b), ErrorClass::Unlisted))
        .count()
}
