// The report of a recording: the lines of document 01, "Recording and report", laid one behind the other. It sees the contracts of the crates below
// and nothing else of them.
#![tactic(auto)]

ghost use Rattle.std.specs.Prelude.{◌≡◌, ◌++◌, ◌+◌, ◌≤◌, length};
ghost use Rattle.bill_table.specs.Worth.{total_of};
ghost use Rattle.refusals.specs.Put.{written, writing};
ghost use Rattle.report.specs.Text.{longest};
ghost use Rattle.report_lines.specs.Lines.{field, line, lines};
ghost use Rattle.report_lines.specs.Scaffolding.{Adds};
ghost use Rattle.report.specs.Report.{value_text, value_line, type_line, type_lines, cassette_lines, good_lines, bad_line, report_text, report_of};

use bill_table::{Letters, Value, Word, total_of, word_at};
use dispenser_rules::{Cassettes, LastErrors};
use grading::replay;
use grading_rules::Findings;
use recording::Fault;
use refusals::{Put, Refusal};
use report_lines::{put, put_digits, put_error, put_field, put_line, put_sums};
use validator_rules::Bills;

// No report is longer: two lines of 146 bytes for the cassettes, two of 32 for their last errors, 20 for those declined, 25 for each of 24 types and 31 for what its bills are
// worth, and 19 for the records.
pub const LONGEST: usize = 1_739;

// Adds the line of a type with its count.
fn put_count(y: u32, n: Bills, text: &mut [u8], at: usize) -> usize
    requires at_in_bounds { at + 25 ≤ length text.old }
    requires y_bound { y ≤ 23 }
    ensures adds { Adds text.old at (line (field "type " y ++ field " bills " n.0)) text.new result }
    ensures upper_bound { result ≤ at + 25 }
{
    let a = put_field(b"type ", y, text, at);
    let b = put_field(b" bills ", n.0, text, a);
    put(b"\n", text, b)
}

// Adds the line of what bills are worth: a whole number, letters, decimals.
fn put_value(value: Value, text: &mut [u8], at: usize) -> usize
    requires at_in_bounds { at + 31 ≤ length text.old }
    requires whole_bound { (value.whole ≤ 255_000_000_000_000_000) × (value.decimals ≤ 9) }
    ensures adds { Adds text.old at (line (value_text value)) text.new result }
    ensures upper_bound { result ≤ at + 31 }
{
    let Letters(one, two, three) = value.letters;
    let a = put(b"value ", text, at);
    let b = put_digits(value.whole, text, a);
    let c = put(&[b' ', one, two, three, b' '], text, b);
    let d = put_digits(value.decimals, text, c);
    put(b"\n", text, d)
}

// Adds the line of what so many bills of a type are worth, if its word says it.
fn put_worth(word: Word, n: u32, text: &mut [u8], at: usize) -> usize
    requires { at + 31 ≤ length text.old }
    ensures adds { Adds text.old at (lines (value_line (total_of word n))) text.new result }
    ensures upper_bound { result ≤ at + 31 }
{
    match total_of(word, n) {
        Ok(None) => at,
        Ok(Some(value)) => put_value(value, text, at),
        Err(_) => at,
    }
}

// Adds the lines of a type, if there is a bill of it.
fn put_type(word: Word, y: u32, n: Bills, text: &mut [u8], at: usize) -> usize
    requires at_in_bounds { at + 56 ≤ length text.old }
    requires y_bound { y ≤ 23 }
    ensures adds { Adds text.old at (lines (type_line word y n)) text.new result }
    ensures upper_bound { result ≤ at + 56 }
{
    if n.0 == 0 {
        return at;
    }
    let a = put_count(y, n, text, at);
    put_worth(word, n.0, text, a)
}

// Adds the lines of each type of which there is a bill.
fn put_types(bills: [Bills; 24], table: &[u8; 120], text: &mut [u8], at: usize) -> usize
    requires { at + 1_344 ≤ length text.old }
    ensures adds { Adds text.old at (lines (type_lines table.now 0 bills)) text.new result }
    ensures upper_bound { result ≤ at + 1_344 }
{
    let mut end = at;
    for (y, &n) in bills.iter().enumerate() {
        let word = word_at(table, y);
        end = put_type(word, y as u32, n, text, end);
    }
    end
}

// Adds the lines of the cassettes.
fn put_cassettes(cassettes: Cassettes, errors: LastErrors, text: &mut [u8]) -> usize
    requires { longest ≤ length text.old }
    ensures adds { Adds text.old 0 (lines (cassette_lines cassettes errors)) text.new result }
    ensures upper_bound { result ≤ 356 }
{
    let a = put_sums(b"upper", cassettes.upper, text, 0);
    let b = put_sums(b"lower", cassettes.lower, text, a);
    let c = put_error(b"upper last error ", errors.upper, text, b);
    put_error(b"lower last error ", errors.lower, text, c)
}

// Adds the report of a good recording.
fn put_good(
    cassettes: Cassettes,
    errors: LastErrors,
    bills: [Bills; 24],
    table: &[u8; 120],
    declined: u32,
    records: u32,
    text: &mut [u8],
) -> usize
    requires { longest ≤ length text.old }
    ensures adds { Adds text.old 0 (lines (good_lines cassettes errors bills table.now declined records)) text.new result }
    ensures upper_bound { result ≤ longest }
{
    let a = put_cassettes(cassettes, errors, text);
    let b = put_line(b"declined ", declined, text, a);
    let c = put_types(bills, table, text, b);
    put_line(b"records ", records, text, c)
}

// Adds the report of a bad recording, its one line.
fn put_bad(why: Fault, at: u32, text: &mut [u8]) -> usize
    requires { longest ≤ length text.old }
    ensures adds { Adds text.old 0 (line (bad_line why at)) text.new result }
    ensures upper_bound { result ≤ longest }
{
    let a = put_field(b"bad ", why.number() as u32, text, 0);
    put_line(b" at ", at, text, a)
}

// Adds the report.
fn put_report(f: Findings, text: &mut [u8]) -> usize
    requires { longest ≤ length text.old }
    ensures adds { Adds text.old 0 (report_text f) text.new result }
    ensures upper_bound { result ≤ longest }
{
    match f.ending {
        Ok(()) => put_good(
            f.account.cassettes,
            f.errors,
            f.bills,
            &f.table,
            f.declined,
            f.records,
            text,
        ),
        Err(bad) => put_bad(bad.fault, bad.at, text),
    }
}

// Lays bytes at the start of the room, if it has room for them.
fn lay(bytes: &[u8], room: &mut [u8]) -> Put
    ensures { written result room.new ≡ writing bytes.now room.old }
{
    if room.len() < bytes.len() {
        return Err(Refusal::Room);
    }
    let n = bytes.len();
    room[..n].copy_from_slice(bytes);
    Ok(n)
}

// The report of what a replay left, at the start of the room. A room of LONGEST bytes is always enough.
pub fn write_report(f: Findings, room: &mut [u8]) -> Put
    ensures { written result room.new ≡ writing (report_text f) room.old }
{
    let mut text = [0u8; LONGEST];
    let n = put_report(f, &mut text);
    lay(&text[0..n], room)
}

// The report of a recording.
pub fn report(recording: &[u8], room: &mut [u8]) -> Put
    ensures { written result room.new ≡ writing (report_of recording.now) room.old }
{
    write_report(replay(recording), room)
}
