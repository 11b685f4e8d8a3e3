// A run: its words are moves, and each is made.
//
//     run hw1000x5 hw200 ha45h,10,0 dh8 hh dt45h,10,10,30h,30h,0 hh14 dh
//
// The first letter of a word is the end, the second what happens there: a asked, c cleared, w so many milliseconds pass, h the next bytes on their way arrive, l they are lost, x a byte
// arrives that nobody sent, r so much room is lent from now on, t told an answer's fields, m so many exchanges with the device alone.
use crate::ways::Way;
use dispenser_frame_rules::{Answer, Cassette};

// Does the line begin with run?
pub fn is_run(line: &[u8]) -> bool {
    line.starts_with(b"run")
}

// What happens at an end.
#[derive(Clone, Copy, PartialEq, Eq)]
pub enum Move {
    Ask,
    // Any letter that names no other move is this one.
    Clear,
    Wait,
    Hear,
    Lose,
    Stray,
    Lend,
    Tell,
    Alone,
}

// What happens in a word, where it is this end's.
pub fn what(end: u8, word: &[u8]) -> Option<Move> {
    match word {
        [first, letter, ..] if *first == end && *letter != 0 => Some(named(*letter)),
        _ => None,
    }
}

fn named(letter: u8) -> Move {
    match letter {
        b'a' => Move::Ask,
        b'w' => Move::Wait,
        b'h' => Move::Hear,
        b'l' => Move::Lose,
        b'x' => Move::Stray,
        b'r' => Move::Lend,
        b't' => Move::Tell,
        b'm' => Move::Alone,
        _ => Move::Clear,
    }
}

// Where the value stands that has so many before it.
fn place(word: &[u8], before: usize) -> usize {
    if before == 0 {
        2
    } else {
        sheet::part(word, before, b',')
    }
}

pub fn number(word: &[u8], before: usize) -> u32 {
    sheet::number_at(word, place(word, before))
}

pub fn byte(word: &[u8], before: usize) -> u8 {
    sheet::byte_at(word, place(word, before))
}

// How often, as a place says; once where it says nothing.
fn times(word: &[u8], at: usize) -> u32 {
    if at < word.len() && b'0' <= word[at] {
        sheet::number_at(word, at)
    } else {
        1
    }
}

// How many calls a move makes at the end that hears one way and puts on the other. A move that is no call is made at once.
pub fn calls(what: Move, word: &[u8], hears: &mut Way, puts: &mut Way) -> u32 {
    match what {
        Move::Hear => hears.ahead(times(word, 2)),
        Move::Wait => times(word, sheet::part(word, 1, b'x')),
        Move::Lose => {
            hears.lose(times(word, 2));
            0
        }
        Move::Lend => {
            puts.lend(number(word, 0));
            0
        }
        Move::Alone => number(word, 0) % 100_000_000 * PURGE,
        Move::Ask | Move::Clear | Move::Stray | Move::Tell => 1,
    }
}

// The calls of an exchange with the device alone: a purge arrives, its answer is told, and 06h arrives.
pub const PURGE: u32 = 8;

// The answer that a telling gives: its code, and its fields in 01's order without the fixed bytes.
pub fn answer(word: &[u8]) -> Answer {
    match byte(word, 0) {
        0x45 => paid_one(word, Cassette::Upper),
        0x55 => paid_one(word, Cassette::Lower),
        0x56 => paid_both(word),
        0x76 => tested(word, Cassette::Upper),
        0x77 => tested(word, Cassette::Lower),
        0x46 => Answer::Status {
            error: byte(word, 1),
            sensor0: byte(word, 2),
            sensor1: byte(word, 3),
        },
        _ => Answer::Purged {
            error: byte(word, 1),
        },
    }
}

fn paid_one(word: &[u8], cassette: Cassette) -> Answer {
    Answer::PaidOne {
        cassette,
        chk: number(word, 1),
        exit: number(word, 2),
        error: byte(word, 3),
        state: byte(word, 4),
        rejects: number(word, 5),
    }
}

fn paid_both(word: &[u8]) -> Answer {
    Answer::PaidBoth {
        upper_chk: number(word, 1),
        upper_exit: number(word, 2),
        lower_chk: number(word, 3),
        lower_exit: number(word, 4),
        error: byte(word, 5),
        upper_state: byte(word, 6),
        lower_state: byte(word, 7),
        upper_rejects: number(word, 8),
        lower_rejects: number(word, 9),
    }
}

fn tested(word: &[u8], cassette: Cassette) -> Answer {
    Answer::Tested {
        cassette,
        chk: number(word, 1),
        error: byte(word, 2),
        state: byte(word, 3),
        rejects: number(word, 4),
    }
}
