// Sentences written into a lent room. Each function writes from a place on and answers where it ends; nothing is written past the room's end, and each says how far it goes at most. So where the
// room is longer than all that is written into it, nothing is cut.
ghost use Rattle.std.specs.Prelude.{◌+◌, ◌*◌, ◌≤◌, ◌<◌, length};

use crate::Said;
use crate::sentences::TABLE;
use numbers::write_decimal;

// One byte.
pub fn byte(room: &mut [u8], at: usize, b: u8) -> usize
    ensures { result ≤ at + 1 }
{
    if at < room.len() {
        room[at] = b;
        at + 1
    } else {
        at
    }
}

// The ASCII of a hex digit, in capitals as 01 has them.
fn hex_digit(d: u8) -> u8
    requires { d < 16 }
{
    if d < 10 { 48 + d } else { 55 + d }
}

// A byte as two hex digits.
fn pair(room: &mut [u8], at: usize, b: u8) -> usize
    ensures { result ≤ at + 2 }
{
    let end = byte(room, at, hex_digit(b / 16));
    byte(room, end, hex_digit(b % 16))
}

// The bytes of a frame, a blank before each: 04 50 02.
pub fn bytes(room: &mut [u8], at: usize, s: &[u8]) -> usize
    ensures { result ≤ at + 3 * length s.now }
{
    let mut end = at;
    for &b in s {
        let place = byte(room, end, b' ');
        end = pair(room, place, b);
    }
    end
}

// A comma where three digits, or six, or nine, are left; none before the first digit, and none where they are not to be grouped.
fn comma(room: &mut [u8], at: usize, grouped: bool, before: usize, left: usize) -> usize
    ensures { result ≤ at + 1 }
{
    if grouped && before != 0 && left % 3 == 0 {
        byte(room, at, b',')
    } else {
        at
    }
}

// Digits, with commas where they are to be grouped.
fn digits(room: &mut [u8], at: usize, s: &[u8], grouped: bool) -> usize
    ensures { result ≤ at + 2 * length s.now }
{
    let mut end = at;
    for (i, &b) in s.iter().enumerate() {
        let place = comma(room, end, grouped, i, s.len() - i);
        end = byte(room, place, b);
    }
    end
}

// A number in decimal: at most twenty digits.
fn decimal(room: &mut [u8], at: usize, n: u64, grouped: bool) -> usize
    ensures { result ≤ at + 40 }
{
    let mut text = [0u8; 20];
    match write_decimal(n, &mut text) {
        Ok(k) if k <= text.len() => digits(room, at, &text[..k], grouped),
        _ => at,
    }
}

// Does a byte of a sentence stand for a value?
fn is_mark(b: u8) -> bool {
    matches!(b, b'#' | b'~' | b'$')
}

// The value that a mark stands for.
fn value(room: &mut [u8], at: usize, mark: u8, n: u64) -> usize
    ensures { result ≤ at + 40 }
{
    if mark == b'$' {
        pair(room, at, (n % 256) as u8)
    } else {
        decimal(room, at, n, mark == b'~')
    }
}

// A line of the table, with its values.
fn filled(room: &mut [u8], at: usize, row: &[u8], values: &[u64; 4]) -> usize
    ensures { result ≤ at + length row.now + 160 }
{
    let mut end = at;
    let mut k = 0;
    for &b in row {
        if k < values.len() && is_mark(b) {
            end = value(room, end, b, values[k]);
            k += 1;
        } else {
            end = byte(room, end, b);
        }
    }
    end
}

// The line of the table that has so many before it. None has more than 100 bytes.
pub(crate) fn row(table: &[u8], before: usize) -> &[u8]
    ensures { length result.now ≤ 100 }
{
    match table.split(|b| *b == b'\n').nth(before) {
        Some(line) => &line[..line.len().min(100)],
        None => &[],
    }
}

// A sentence with its values: 100 bytes, and 40 for each value, at most.
pub fn write(room: &mut [u8], at: usize, said: Said) -> usize
    ensures { result ≤ at + 260 }
{
    let values = said.values;
    filled(room, at, row(&TABLE, said.sentence), &values)
}
