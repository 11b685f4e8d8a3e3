// A record written at the start of a lent room. Document 02, Q-8: "Add a writer for recordings, so that a corrected session can be saved". A recording is saved record
// by record, each behind the one before.
#![tactic(auto)]

ghost use Rattle.std.specs.Prelude.{◌≡◌, ◌+◌, ◌≤◌, ◌∷◌, ◌++◌, length, take, drop};
ghost use Rattle.refusals.specs.Put.{written, over};
ghost use Rattle.numbers.specs.Seven.{groups};
ghost use Rattle.recording.specs.Record.{record_bytes};
ghost use Rattle.record_writer.specs.Writing.{is_taken, write_record};

use numbers::write_groups;
use recording::{Record, is_command, is_request};
use refusals::{Put, Refusal};

// How many groups of seven bits a number has.
fn size_of(n: u32) -> usize
    ensures groups { result ≡ length (groups n) }
    ensures most { result ≤ 5 }
{
    if n < 128 {
        return 1;
    }
    if n < 16_384 {
        return 2;
    }
    if n < 2_097_152 {
        return 3;
    }
    if n < 268_435_456 {
        return 4;
    }
    5
}

// How many bytes a record has: 1 to 16.
pub fn length_of(x: Record) -> usize
    ensures { result ≡ length (record_bytes x) }
{
    match x {
        Record::Request { code, upper, lower } => {
            1 + size_of(code as u32) + size_of(upper) + size_of(lower)
        }
        Record::DispenserByte(b) => 1 + size_of(b as u32),
        Record::Tick(ms) => 1 + size_of(ms),
        Record::ValidatorByte(b) => 1 + size_of(b as u32),
        Record::Command(code) => 1 + size_of(code as u32),
        Record::Clear => 1,
    }
}

// Does its kind take the record's values? A byte is never above 255, and milliseconds and counts may be any.
fn is_taken(x: Record) -> bool
    ensures { result ≡ (is_taken x).test }
{
    match x {
        Record::Request {
            code,
            upper: _,
            lower: _,
        } => is_request(code as u64),
        Record::DispenserByte(_b) => true,
        Record::Tick(_) => true,
        Record::ValidatorByte(_b) => true,
        Record::Command(code) => is_command(code as u32),
        Record::Clear => true,
    }
}

// Lays a number behind the room's first bytes, and says where it ends.
fn lay_number(n: u32, at: usize, room: &mut [u8]) -> usize
    requires { at + length (groups n) ≤ length room.old }
    ensures place { result ≡ at + length (groups n) }
    ensures bytes { room.new ≡ take at room.old ++ over (groups n) (drop at room.old) }
{
    match write_groups(n, &mut room[at..]) {
        Ok(k) => at + k,
        Err(_) => at,
    }
}

// Lays a kind and one number at the room's start, and says how many bytes they are.
fn lay_one(kind: u8, n: u32, room: &mut [u8]) -> usize
    requires { 1 + length (groups n) ≤ length room.old }
    ensures place { result ≡ 1 + length (groups n) }
    ensures bytes { room.new ≡ over (kind ∷ groups n) room.old }
{
    room[0] = kind;
    lay_number(n, 1, room)
}

// Lays a record at the room's start, and says how many bytes it has.
fn lay(x: Record, room: &mut [u8]) -> usize
    requires { length (record_bytes x) ≤ length room.old }
    ensures place { result ≡ length (record_bytes x) }
    ensures bytes { room.new ≡ over (record_bytes x) room.old }
{
    match x {
        Record::Request { code, upper, lower } => {
            let first = lay_one(0, code as u32, room);
            let second = lay_number(upper, first, room);
            lay_number(lower, second, room)
        }
        Record::DispenserByte(b) => lay_one(1, b as u32, room),
        Record::Tick(ms) => lay_one(2, ms, room),
        Record::ValidatorByte(b) => lay_one(3, b as u32, room),
        Record::Command(code) => lay_one(4, code as u32, room),
        Record::Clear => {
            room[0] = 5;
            1
        }
    }
}

// Writes a record at the start of the room. A refusal leaves the room as it was.
pub fn write(x: Record, room: &mut [u8]) -> Put
    ensures { written result room.new ≡ write_record x room.old }
{
    if room.len() < length_of(x) {
        return Err(Refusal::Room);
    }
    if is_taken(x) {
        return Ok(lay(x, room));
    }
    Err(Refusal::Range)
}
