// What the words of a line give: counts and answers, and the room that is lent.
ghost use Rattle.std.specs.Prelude.{◌≤◌};

use vcdm_frame_rules::{Answer, Cassettes, Counts, Paid, Place, Places, Spare};

// More than the longest frame, an answer of 30 bytes.
pub(crate) const ROOM: usize = 40;

// Four counts from a word on.
pub(crate) fn counts(line: &[u8], at: usize) -> Counts
    requires { at ≤ 100 }
{
    Counts {
        top: sheet::number(line, at),
        second: sheet::number(line, at + 1),
        third: sheet::number(line, at + 2),
        bottom: sheet::number(line, at + 3),
    }
}

// The answer that a line gives, with its fields in the frame's order.
pub(crate) fn answer(line: &[u8]) -> Answer {
    match sheet::byte(line, 4) {
        0x50 => status(line),
        0x55 => last(line),
        0x44 => Answer::Reset {
            error: sheet::byte(line, 6),
        },
        code => paid_or_purged(code, line),
    }
}

fn status(line: &[u8]) -> Answer {
    Answer::Status {
        error: sheet::byte(line, 6),
        disp0: sheet::byte(line, 8),
        disp1: sheet::byte(line, 9),
        places: Places {
            top: place(line, 12),
            second: place(line, 21),
            third: place(line, 30),
            bottom: place(line, 39),
        },
    }
}

fn place(line: &[u8], at: usize) -> Place
    requires { at ≤ 100 }
{
    Place {
        stat: sheet::byte(line, at),
        kind: sheet::byte(line, at + 2),
        opacity: sheet::byte(line, at + 4),
        length: sheet::byte(line, at + 6),
    }
}

fn paid_or_purged(code: u8, line: &[u8]) -> Answer {
    let error = sheet::byte(line, 6);
    let second = sheet::byte(line, 8);
    let cassettes = cassettes(line, 11);
    let spare = spare(line, 38);
    if code == 0x51 {
        Answer::Purged {
            error,
            miss: second,
            cassettes,
            spare,
        }
    } else {
        Answer::Dispensed {
            error,
            serial: second,
            cassettes,
            spare,
        }
    }
}

fn last(line: &[u8]) -> Answer {
    Answer::Last {
        last: sheet::byte(line, 6),
        error: sheet::byte(line, 8),
        serial: sheet::byte(line, 10),
        cassettes: cassettes(line, 13),
        spare: spare(line, 40),
    }
}

// The cassettes, from the top one's EXIT on.
fn cassettes(line: &[u8], at: usize) -> Cassettes
    requires { at ≤ 60 }
{
    Cassettes {
        top: paid(line, at),
        second: paid(line, at + 7),
        third: paid(line, at + 14),
        bottom: paid(line, at + 21),
    }
}

fn paid(line: &[u8], at: usize) -> Paid
    requires { at ≤ 100 }
{
    Paid {
        exit: sheet::number(line, at),
        rejects: sheet::number(line, at + 2),
        kind: sheet::byte(line, at + 4),
    }
}

fn spare(line: &[u8], at: usize) -> Spare
    requires { at ≤ 100 }
{
    Spare {
        a: sheet::byte(line, at),
        b: sheet::byte(line, at + 1),
        c: sheet::byte(line, at + 2),
        d: sheet::byte(line, at + 3),
        e: sheet::byte(line, at + 4),
        f: sheet::byte(line, at + 5),
        g: sheet::byte(line, at + 6),
        h: sheet::byte(line, at + 7),
        i: sheet::byte(line, at + 8),
    }
}
