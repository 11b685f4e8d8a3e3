// The records of a line, as `explain` writes it or as somebody types it: one, or several bytes, or a tick with how often.
use crate::records;
use recording::Record;
use text::{Heard, Said, hear, past_blanks};

// A record that a line says, so many times, up to a place.
#[derive(Clone, Copy)]
pub struct Spelled {
    pub record: Record,
    pub times: u32,
    pub end: usize,
}

// What a line says next is not understood.
#[derive(Clone, Copy)]
pub struct Unclear;

// Is the rest of the line, from a place on, blank?
fn is_over(line: &[u8], from: usize) -> bool {
    line.len() <= past_blanks(line, from)
}

// Does the whole line say a sentence?
pub fn is_sentence(line: &[u8], sentence: usize) -> bool {
    match hear(line, past_blanks(line, 0), sentence) {
        Some(heard) => is_over(line, heard.end),
        None => false,
    }
}

// Where the words of a line begin: behind the milliseconds and the offset, if they are there.
fn start(line: &[u8]) -> usize {
    let from = past_blanks(line, 0);
    match hear(line, from, Said::PLACE) {
        Some(place) => past_blanks(line, place.end),
        None => from,
    }
}

// The first record of a line, if it has one.
pub fn first(line: &[u8]) -> Result<Option<Spelled>, Unclear> {
    let from = start(line);
    if is_over(line, from) {
        return Ok(None);
    }
    for sentence in Said::FIRST..=Said::LAST {
        if let Some(heard) = hear(line, from, sentence) {
            return Ok(Some(says(line, sentence, heard)?));
        }
    }
    Err(Unclear)
}

// A record whose counts fit. A tick may say how often it came.
fn says(line: &[u8], sentence: usize, heard: Heard) -> Result<Spelled, Unclear> {
    let values = heard.values;
    if !fits(values) {
        return Err(Unclear);
    }
    let record = records::record(sentence, values);
    if sentence == Said::TICK {
        return ticks(record, heard.end, hear(line, heard.end, Said::TIMES));
    }
    Ok(Spelled {
        record,
        times: 1,
        end: heard.end,
    })
}

fn ticks(record: Record, end: usize, often: Option<Heard>) -> Result<Spelled, Unclear> {
    let Some(often) = often else {
        return Ok(Spelled {
            record,
            times: 1,
            end,
        });
    };
    let values = often.values;
    if !fits(values) {
        return Err(Unclear);
    }
    Ok(Spelled {
        record,
        times: (values[0] % 4_294_967_296) as u32,
        end: often.end,
    })
}

// Is every value below 4,294,967,296?
fn fits(values: [u64; 4]) -> bool {
    values[..3].iter().all(|&n| n < 4_294_967_296)
}

// What follows a record at a place of the line: behind a byte there may be others.
pub fn next(line: &[u8], before: Record, end: usize) -> Result<Option<Spelled>, Unclear> {
    if is_over(line, end) {
        return Ok(None);
    }
    let Some(heard) = hear(line, end, Said::FURTHER) else {
        return Err(Unclear);
    };
    let sentence = match before {
        Record::DispenserByte(_) => Said::DISPENSER_BYTE,
        Record::ValidatorByte(_) => Said::VALIDATOR_BYTE,
        _ => {
            return Err(Unclear);
        }
    };
    Ok(Some(Spelled {
        record: records::record(sentence, heard.values),
        times: 1,
        end: heard.end,
    }))
}
