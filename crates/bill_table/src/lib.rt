// The validator's bill table: 120 bytes, that is 24 words of five, one for each bill type; and what so many bills of a type are worth. Document 02, Q-1, and 003.
#![tactic(auto)]

ghost use Rattle.std.specs.Prelude.{◌≡◌, ◌^◌, ◌≤◌, length};
ghost use Rattle.refusals.specs.Put.{written, writing, over};
ghost use Rattle.bill_table.specs.Table.{kept, read_table, word_at};
ghost use Rattle.bill_table.specs.Worth.{is_absent, is_letter, is_scale, is_usable, worth, meaning_of, total_of};

use refusals::{Put, Refusal};

// The bytes of a table, those of a word, and how many words that makes.
pub const SIZE: usize = 120;

const WORD: usize = 5;

const TYPES: usize = 24;

// No session takes more bills in, and for so many every total fits.
const MOST_BILLS: u32 = 1_000_000;

// Zeros and places are at most so many.
const MOST_ZEROS: u8 = 9;

// The top bit of a word's last byte: set, the byte tells places.
const PLACES: u8 = 0x80;

// Three letters: those of the currency.
#[derive(Clone, Copy)]
pub struct Letters(pub u8, pub u8, pub u8);

// A word, as its bytes say it: the leading digits as a number, the letters, and the byte that tells zeros or places.
#[derive(Clone, Copy)]
pub struct Word {
    pub first: u8,
    pub letters: Letters,
    pub last: u8,
}

// What bills are worth: a whole number that has so many decimals, and the letters. 25 NLC with 2 decimals is 0.25 NLC.
#[derive(Clone, Copy)]
pub struct Value {
    pub whole: u64,
    pub letters: Letters,
    pub decimals: u64,
}

// What a word says of its bill type.
#[derive(Clone, Copy)]
pub enum Meaning {
    // All five bytes are zero: there is no such bill.
    NoBill,
    // Its letters are not A to Z, or it has more than nine zeros or places.
    Unusable,
    // What one bill is worth.
    Valued(Value),
}

// Lays the bytes at the start of the room.
fn lay(bytes: &[u8], room: &mut [u8])
    requires { length bytes.now ≤ length room.old }
    ensures { room.new ≡ over bytes.now room.old }
{
    room[..bytes.len()].copy_from_slice(bytes);
}

// Reads a body of 0 to 120 bytes into the table: bytes that were not sent count as zero. A longer body is no table, and leaves the one that is there.
#[tactic(auto, using(refusals::proofs::Rules::tests, crate::proofs::Filling::filled_over), unfolding(crate::specs::Table::read_table))]
pub fn read(body: &[u8], table: &mut [u8; 120]) -> bool
    ensures { kept result table.new ≡ read_table body.now table.old }
{
    if SIZE < body.len() {
        return false;
    }
    *table = [0; 120];
    lay(body, table);
    true
}

// Writes the table's 120 bytes at the start of the room. A refusal leaves the room as it was.
pub fn write(table: &[u8; 120], room: &mut [u8]) -> Put
    ensures { written result room.new ≡ writing table.now room.old }
{
    if room.len() < SIZE {
        return Err(Refusal::Room);
    }
    lay(table, room);
    Ok(SIZE)
}

// The word of a bill type; that of no bill where there is no such type.
#[tactic(auto, using(refusals::proofs::Rules::tests), unfolding(crate::specs::Table::word_at))]
pub fn word_at(table: &[u8; 120], bill: usize) -> Word
    ensures { result ≡ word_at table.now bill }
{
    if TYPES <= bill {
        return Word {
            first: 0,
            letters: Letters(0, 0, 0),
            last: 0,
        };
    }
    let at = WORD * bill;
    Word {
        first: table[at],
        letters: Letters(table[at + 1], table[at + 2], table[at + 3]),
        last: table[at + 4],
    }
}

// Are all five bytes zero?
fn is_absent(word: Word) -> bool
    ensures { result ≡ (is_absent word).test }
{
    let Letters(one, two, three) = word.letters;
    word.first == 0 && one == 0 && two == 0 && three == 0 && word.last == 0
}

// Does the last byte tell at most nine zeros, or at most nine places?
#[tactic(auto, using(refusals::proofs::Rules::tests))]
fn is_scale(last: u8) -> bool
    ensures { result ≡ (is_scale last).test }
{
    last <= MOST_ZEROS || (PLACES..=PLACES + MOST_ZEROS).contains(&last)
}

fn is_letter(b: u8) -> bool
    ensures { result ≡ (is_letter b).test }
{
    b.is_ascii_uppercase()
}

// Are the letters A to Z, and the zeros or places at most nine?
fn is_usable(word: Word) -> bool
    ensures { result ≡ (is_usable word).test }
{
    is_letter(word.letters.0)
        && is_letter(word.letters.1)
        && is_letter(word.letters.2)
        && is_scale(word.last)
}

// 10 with so many zeros less one: 1, 10, 100 and so on.
fn ten_to(zeros: u8) -> u64
    requires { zeros ≤ 9 }
    ensures { result ≡ 10 ^ zeros }
{
    10u64.pow(zeros as u32)
}

// What so many bills are worth, of a word that is usable. The largest, 1,000,000 times 255 with nine zeros, fits.
fn worth_of(word: Word, count: u32) -> Value
    requires fact { (is_usable word).holds }
    requires count_bound { count ≤ 1000000 }
    ensures { result ≡ worth word count }
{
    let letters = word.letters;
    let bills = count as u64;
    let first = word.first as u64;
    if word.last < PLACES {
        let one = first * ten_to(word.last);
        let whole = bills * one;
        Value {
            whole,
            letters,
            decimals: 0,
        }
    } else {
        let whole = bills * first;
        Value {
            whole,
            letters,
            decimals: (word.last - PLACES) as u64,
        }
    }
}

// What a word says of its bill type.
#[tactic(auto, using(refusals::proofs::Rules::tests), unfolding(crate::specs::Worth::meaning_of))]
pub fn meaning_of(word: Word) -> Meaning
    ensures { result ≡ meaning_of word }
{
    if is_absent(word) {
        Meaning::NoBill
    } else if is_usable(word) {
        Meaning::Valued(worth_of(word, 1))
    } else {
        Meaning::Unusable
    }
}

// What so many bills of the type with that word are worth, to the last place, if the word says a value. More bills than any session takes in are refused.
#[tactic(auto, using(refusals::proofs::Rules::tests), unfolding(crate::specs::Worth::total_of))]
pub fn total_of(word: Word, count: u32) -> Result<Option<Value>, Refusal>
    ensures { result ≡ total_of word count }
{
    if MOST_BILLS < count {
        return Err(Refusal::Range);
    }
    Ok(if is_usable(word) {
        Some(worth_of(word, count))
    } else {
        None
    })
}
