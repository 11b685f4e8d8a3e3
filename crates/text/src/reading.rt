// Sentences heard in a line: the line is laid beside a line of the table, byte by byte. Where that has a blank, the line may have several.
use crate::sentences::TABLE;
use crate::writing::row;

// Where a sentence ends in the line, and its values, of which so many were taken so far.
#[derive(Clone, Copy)]
pub struct Heard {
    pub end: usize,
    pub taken: usize,
    pub values: [u64; 4],
}

impl Heard {
    fn from(end: usize) -> Heard {
        Heard {
            end,
            taken: 0,
            values: [0; 4],
        }
    }

    // The same, further on.
    fn up_to(mut self, end: usize) -> Heard {
        self.end = end;
        self
    }

    // With one value more.
    fn plus(mut self, n: u64, end: usize) -> Heard {
        let k = self.taken;
        self.end = end;
        if k < 4 {
            self.values[k] = n;
            self.taken = k + 1;
        }
        self
    }
}

fn is_blank(b: u8) -> bool {
    matches!(b, b' ' | b'\t' | b'\r')
}

// The place of the first byte from a place on that is no blank.
pub fn past_blanks(line: &[u8], from: usize) -> usize {
    let rest = &line[from.min(line.len())..];
    from + rest.iter().take_while(|b| is_blank(**b)).count()
}

fn is_digit(b: u8) -> bool {
    b.is_ascii_digit()
}

// The number with one digit more; one of 4,294,967,296 or more stays so.
fn more(n: u64, b: u8) -> u64 {
    if n < 4_294_967_296 {
        n * 10 + (b % 16) as u64
    } else {
        n
    }
}

// A number in decimal.
fn number(line: &[u8], heard: Heard) -> Option<Heard> {
    let rest = &line[heard.end.min(line.len())..];
    let count = rest
        .iter()
        .position(|b| !is_digit(*b))
        .unwrap_or(rest.len());
    if count == 0 {
        return None;
    }
    let n = rest[..count].iter().fold(0, |n, &b| more(n, b));
    Some(heard.plus(n, heard.end + count))
}

// The value of a hex digit, in capitals.
fn digit_of(b: u8) -> Option<u8> {
    match b {
        b'0'..=b'9' => Some(b % 16),
        b'A'..=b'F' => Some(b % 16 + 9),
        _ => None,
    }
}

// A byte in hex.
fn hex(line: &[u8], heard: Heard) -> Option<Heard> {
    let at = heard.end;
    if line.len() < 2 || line.len() - 2 < at {
        return None;
    }
    let high = digit_of(line[at])?;
    let low = digit_of(line[at + 1])?;
    Some(heard.plus(high as u64 * 16 + low as u64, at + 2))
}

// A byte of the sentence itself.
fn letter(b: u8, line: &[u8], heard: Heard) -> Option<Heard> {
    let at = heard.end;
    if at < line.len() && line[at] == b {
        Some(heard.up_to(at + 1))
    } else {
        None
    }
}

// A blank, or several.
fn blanks(line: &[u8], heard: Heard) -> Option<Heard> {
    let end = past_blanks(line, heard.end);
    if end == heard.end {
        None
    } else {
        Some(heard.up_to(end))
    }
}

// What a byte of the sentence stands for.
fn next(b: u8, line: &[u8], heard: Heard) -> Option<Heard> {
    match b {
        b'#' => number(line, heard),
        b'$' => hex(line, heard),
        b' ' => blanks(line, heard),
        _ => letter(b, line, heard),
    }
}

// A sentence of the table, beside the line.
fn beside(row: &[u8], line: &[u8], from: usize) -> Option<Heard> {
    let mut heard = Heard::from(from);
    for &b in row {
        heard = next(b, line, heard)?;
    }
    Some(heard)
}

// Does the sentence stand in the line, from a place on? What stands behind it is not looked at.
pub fn hear(line: &[u8], from: usize, sentence: usize) -> Option<Heard> {
    beside(row(&TABLE, sentence), line, from)
}
