// What the words say: an amount, and then VALUE:STOCK for each cassette.
ghost use Rattle.std.specs.Prelude.{◌≤◌};

use std::io;
use std::io::Write;

// What words said so far. Of the cassettes the first five are kept.
#[derive(Drop)]
pub(crate) struct Asked {
    words: usize,
    pub(crate) amount: u32,
    pub(crate) values: [u32; 5],
    pub(crate) stocks: [u32; 5],
}

impl Asked {
    pub(crate) fn nothing() -> Self {
        Asked {
            words: 0,
            amount: 0,
            values: [0; 5],
            stocks: [0; 5],
        }
    }

    // How many cassettes the words give. More than five are as much out of range as five.
    pub(crate) fn cassettes(&self) -> usize
        ensures { result ≤ 5 }
    {
        self.words.saturating_sub(1).min(5)
    }

    // Keeps what the next word says, or answers false, and says why, where it is no number.
    pub(crate) fn keep<D: Write>(&mut self, says: &mut D, word: &[u8]) -> io::Result<bool> {
        let before = self.words;
        self.words = before.saturating_add(1);
        match before.checked_sub(1) {
            None => self.keep_amount(says, word),
            Some(cassette) => self.keep_cassette(says, word, cassette),
        }
    }

    fn keep_amount<D: Write>(&mut self, says: &mut D, word: &[u8]) -> io::Result<bool> {
        let Some(amount) = number_of(word) else {
            return refuse(says, word, b": no number: an amount is digits alone\n");
        };
        self.amount = amount;
        Ok(true)
    }

    fn keep_cassette<D: Write>(
        &mut self,
        says: &mut D,
        word: &[u8],
        cassette: usize,
    ) -> io::Result<bool> {
        let Some(colon) = word.iter().position(|b| *b == b':') else {
            return refuse(
                says,
                word,
                b": no number: a cassette is VALUE:STOCK, each digits alone\n",
            );
        };
        let Some(value) = number_of(&word[..colon]) else {
            return refuse(says, word, b": no number: a note value is digits alone\n");
        };
        let Some(stock) = number_of(&word[colon + 1..]) else {
            return refuse(says, word, b": no number: a stock is digits alone\n");
        };
        if cassette < 5 {
            self.values[cassette] = value;
            self.stocks[cassette] = stock;
        }
        Ok(true)
    }
}

// The text without that end, where it has it.
pub(crate) fn without<'a>(s: &'a [u8], end: &[u8]) -> &'a [u8] {
    s.strip_suffix(end).unwrap_or(s)
}

// The number that digits say. One that is too large for u32 becomes a great one, which is out of every range here.
fn number_of(s: &[u8]) -> Option<u32> {
    if s.is_empty() {
        return None;
    }
    let mut n: u32 = 0;
    for b in s {
        if !b.is_ascii_digit() {
            return None;
        }
        n = n.saturating_mul(10).saturating_add((*b - b'0') as u32);
    }
    Some(n)
}

fn refuse<D: Write>(says: &mut D, word: &[u8], why: &[u8]) -> io::Result<bool> {
    says.write_all(word)?;
    says.write_all(why)?;
    Ok(false)
}
