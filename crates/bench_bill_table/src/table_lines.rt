// Lines about bill tables.
//
//     word 19h 4Eh 4Ch 43h 82h, bills 100
//     table, room 120: 19 4E 4C 43 82
//
// A word: what it says, and what so many bills of its type are worth. A table: the body behind the colon is read into a table whose bytes are all 5Ah, so that it shows
// what a reading leaves; then the table is written into a room of the size that the line gives, and its words are told, but for those of no bill.
use bill_table::{Letters, Meaning, Value, Word};
use refusals::Refusal;
use std::io;
use std::io::Write;

// What each byte of the table holds at first.
const BEFORE: u8 = 0x5A;

pub(crate) fn word<W: Write>(out: &mut W, line: &[u8]) -> io::Result<()> {
    sheet::print_whole_line(out, line)?;
    let word = Word {
        first: sheet::byte(line, 1),
        letters: Letters(
            sheet::byte(line, 2),
            sheet::byte(line, 3),
            sheet::byte(line, 4),
        ),
        last: sheet::byte(line, 5),
    };
    sheet::print_text(out, b"    ")?;
    print_meaning(out, bill_table::meaning_of(word))?;
    sheet::print_text(out, b", ")?;
    print_total(out, bill_table::total_of(word, sheet::number(line, 7)))?;
    sheet::print_text(out, b"\n")
}

fn print_meaning<W: Write>(out: &mut W, meaning: Meaning) -> io::Result<()> {
    match meaning {
        Meaning::NoBill => sheet::print_text(out, b"no such bill"),
        Meaning::Unusable => sheet::print_text(out, b"unusable"),
        Meaning::Valued(value) => {
            sheet::print_text(out, b"value ")?;
            print_value(out, value)
        }
    }
}

fn print_total<W: Write>(out: &mut W, total: Result<Option<Value>, Refusal>) -> io::Result<()> {
    match total {
        Ok(None) => sheet::print_text(out, b"no total"),
        Ok(Some(value)) => {
            sheet::print_text(out, b"total ")?;
            print_value(out, value)
        }
        Err(why) => sheet::print_form(out, b"total refused #", &[why.number() as u32]),
    }
}

// The whole number, the letters, the decimals.
fn print_value<W: Write>(out: &mut W, value: Value) -> io::Result<()> {
    let letters = value.letters;
    write!(out, "{} ", value.whole)?;
    sheet::print_text(out, &[letters.0, letters.1, letters.2])?;
    write!(out, " {}", value.decimals)
}

pub(crate) fn table<W: Write>(out: &mut W, line: &[u8]) -> io::Result<()> {
    sheet::print_whole_line(out, line)?;
    let mut store = sheet::fresh_room::<{ sheet::LONG }>();
    let end = sheet::frame(line, &mut store);
    let mut table = [BEFORE; 120];
    if bill_table::read(&store[0..end], &mut table) {
        sheet::print_text(out, b"    taken")?;
    } else {
        sheet::print_text(out, b"    not taken")?;
    }
    print_written(out, &table, sheet::number(line, 2))?;
    print_words(out, &table)
}

// The table written into a room of that size.
fn print_written<W: Write>(out: &mut W, table: &[u8; 120], size: u32) -> io::Result<()> {
    let mut lent = sheet::fresh_room::<{ sheet::LONG }>();
    written_in(out, table, size, &mut lent)
}

fn written_in<W: Write>(
    out: &mut W,
    table: &[u8; 120],
    size: u32,
    lent: &mut [u8],
) -> io::Result<()> {
    let end = sheet::at_most(size as usize, lent);
    let put = bill_table::write(table, &mut lent[0..end]);
    sheet::print_put(out, put, lent)?;
    Ok(())
}

// The words but for those of no bill.
fn print_words<W: Write>(out: &mut W, table: &[u8; 120]) -> io::Result<()> {
    sheet::print_text(out, b"    words:")?;
    let mut told = false;
    for bill in 0..24 {
        told |= print_word(
            out,
            bill,
            told,
            bill_table::meaning_of(bill_table::word_at(table, bill)),
        )?;
    }
    sheet::print_text(out, b"\n")
}

// Says whether the word was told. Behind one that was, a semicolon stands first.
fn print_word<W: Write>(
    out: &mut W,
    bill: usize,
    told: bool,
    meaning: Meaning,
) -> io::Result<bool> {
    if let Meaning::NoBill = meaning {
        return Ok(false);
    }
    sheet::print_text(out, if told { b"; " } else { b" " })?;
    sheet::print_number(out, bill)?;
    sheet::print_text(out, b" ")?;
    print_meaning(out, meaning)?;
    Ok(true)
}
