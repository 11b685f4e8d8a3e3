// What the report of a recording is laid of: words, numbers, and the lines of a cassette, each behind what stands before it.
#![tactic(auto)]

ghost use Rattle.std.specs.Prelude.{◌++◌, ◌+◌, ◌≤◌, length};
ghost use Rattle.numbers.specs.Decimal.{decimal};
ghost use Rattle.error_codes.specs.Errors.{class_name};
ghost use Rattle.report_lines.specs.Text.{bytes_of};
ghost use Rattle.report_lines.specs.Lines.{line, paid_part, unpaid_part, sums_line, last_name, error_line};
ghost use Rattle.report_lines.specs.Scaffolding.{Adds};

use error_codes::ErrorClass;
use exchange_rules::Sums;
use numbers::write_decimal;

// Adds bytes behind those that stand before a place, and says where they end.
pub fn put(bytes: &[u8], text: &mut [u8], at: usize) -> usize
    requires { at + length bytes.now ≤ length text.old }
    ensures { Adds text.old at bytes.now text.new result }
{
    let end = at + bytes.len();
    text[at..end].copy_from_slice(bytes);
    end
}

// Adds a number, in decimal: at most twenty digits.
pub fn put_digits(n: u64, text: &mut [u8], at: usize) -> usize
    requires { at + length (decimal n) ≤ length text.old }
    ensures { Adds text.old at (decimal n) text.new result }
{
    let mut digits = [0u8; 20];
    match write_decimal(n, &mut digits) {
        Ok(k) => put(&digits[0..k], text, at),
        Err(_) => at,
    }
}

// Adds a number of at most ten digits.
fn put_number(n: u32, text: &mut [u8], at: usize) -> usize
    requires { at + 10 ≤ length text.old }
    ensures adds { Adds text.old at (decimal n) text.new result }
    ensures upper_bound { result ≤ at + 10 }
{
    put_digits(n as u64, text, at)
}

// Adds a word and its number.
pub fn put_field(word: &[u8], n: u32, text: &mut [u8], at: usize) -> usize
    requires { at + length word.now + 10 ≤ length text.old }
    ensures adds { Adds text.old at (word.now ++ decimal n) text.new result }
    ensures upper_bound { result ≤ at + length word.now + 10 }
{
    let end = put(word, text, at);
    put_number(n, text, end)
}

// Adds a line that is a word and its number.
pub fn put_line(word: &[u8], n: u32, text: &mut [u8], at: usize) -> usize
    requires { at + length word.now + 11 ≤ length text.old }
    ensures adds { Adds text.old at (line (word.now ++ decimal n)) text.new result }
    ensures upper_bound { result ≤ at + length word.now + 11 }
{
    let a = put_field(word, n, text, at);
    put(b"\n", text, a)
}

// Adds the first part of a cassette's line: asked, paid, short and over.
fn put_paid(name: &[u8], s: Sums, text: &mut [u8], at: usize) -> usize
    requires at_in_bounds { at + 71 ≤ length text.old }
    requires name_len_bound { length name.now ≤ 5 }
    ensures adds { Adds text.old at (paid_part name.now s) text.new result }
    ensures upper_bound { result ≤ at + 71 }
{
    let a = put(name, text, at);
    let b = put_field(b" asked ", s.asked.0, text, a);
    let c = put_field(b" paid ", s.paid.0, text, b);
    let d = put_field(b" short ", s.short.0, text, c);
    put_field(b" over ", s.over.0, text, d)
}

// Adds the second part: refused, unknown, open and rejected.
fn put_unpaid(s: Sums, text: &mut [u8], at: usize) -> usize
    requires { at + 74 ≤ length text.old }
    ensures adds { Adds text.old at (unpaid_part s) text.new result }
    ensures upper_bound { result ≤ at + 74 }
{
    let a = put_field(b" refused ", s.refused.0, text, at);
    let b = put_field(b" unknown ", s.unknown.0, text, a);
    let c = put_field(b" open ", s.pending.0, text, b);
    put_field(b" rejected ", s.rejected.0, text, c)
}

// Adds the line of a cassette.
pub fn put_sums(name: &[u8], s: Sums, text: &mut [u8], at: usize) -> usize
    requires at_in_bounds { at + 146 ≤ length text.old }
    requires name_len_bound { length name.now ≤ 5 }
    ensures adds { Adds text.old at (line (sums_line name.now s)) text.new result }
    ensures upper_bound { result ≤ at + 146 }
{
    let a = put_paid(name, s, text, at);
    let b = put_unpaid(s, text, a);
    put(b"\n", text, b)
}

// Adds the name of a class. No `Display`: the report is laid into a lent room, with no heap and no writer.
fn put_class(class: ErrorClass, text: &mut [u8], at: usize) -> usize
    requires { at + 14 ≤ length text.old }
    ensures adds { Adds text.old at (bytes_of (class_name class)) text.new result }
    ensures upper_bound { result ≤ at + 14 }
{
    match class {
        ErrorClass::Fine => put(b"fine", text, at),
        ErrorClass::OutOfNotes => put(b"out of notes", text, at),
        ErrorClass::NotSeated => put(b"not seated", text, at),
        ErrorClass::Jam => put(b"jam", text, at),
        ErrorClass::CountInDoubt => put(b"count in doubt", text, at),
        ErrorClass::OtherListed => put(b"other listed", text, at),
        ErrorClass::Unlisted => put(b"unlisted", text, at),
    }
}

// Adds the name of a last error.
fn put_name(last: Option<ErrorClass>, text: &mut [u8], at: usize) -> usize
    requires { at + 14 ≤ length text.old }
    ensures adds { Adds text.old at (bytes_of (last_name last)) text.new result }
    ensures upper_bound { result ≤ at + 14 }
{
    match last {
        None => put(b"none", text, at),
        Some(class) => put_class(class, text, at),
    }
}

// Adds the line of a cassette's last error.
pub fn put_error(name: &[u8], last: Option<ErrorClass>, text: &mut [u8], at: usize) -> usize
    requires { at + length name.now + 15 ≤ length text.old }
    ensures adds { Adds text.old at (line (error_line name.now last)) text.new result }
    ensures upper_bound { result ≤ at + length name.now + 15 }
{
    let a = put(name, text, at);
    let b = put_name(last, text, a);
    put(b"\n", text, b)
}
