// A record taken at once, where one is due: what the step over one byte makes of its bytes, one after the other.
ghost use Rattle.std.specs.Prelude.{◌≡◌, ℕ, ◌+◌, ◌≤◌, ◌<◌, length, drop, cond};
ghost use Rattle.recording.specs.Reading.{fresh_reader, numbered, request_read};
ghost use Rattle.recording.specs.Taking.{settled, found_from, found_at, glances_in};
ghost use Rattle.recording.specs.Scaffolding.{place_of, last_due, IsSure};
ghost use Rattle.recording.specs.declared.Reader.{Reader};
ghost use Rattle.recording.specs.NextRecord.{NextRecord};

use crate::{Fault, Reader, Record, is_command, is_request};

// A record of one number, of kind 1 to 4, and how many bytes it has. The values are judged as the reader judges them; by the kind itself, since the way over the reader's place is slow.
fn single(kind: u8, n: u32, size: usize) -> Result<(Record, usize), Fault>
    requires kind_nonzero { 0 < kind }
    requires kind_bound { kind ≤ 4 }
    ensures { (reader : Reader) (rest : NextRecord) → result ≡ settled (numbered (place_of kind) reader n).outcome size rest }
{
    if kind == 2 {
        return Ok((Record::Tick(n), size));
    }
    if kind == 1 {
        if 255 < n {
            return Err(Fault::Unknown);
        }
        return Ok((Record::DispenserByte(n as u8), size));
    }
    if kind == 3 {
        if 255 < n {
            return Err(Fault::Unknown);
        }
        return Ok((Record::ValidatorByte(n as u8), size));
    }
    if is_command(n) {
        return Ok((Record::Command((n % 256) as u8), size));
    }
    Err(Fault::Unknown)
}

// A request whose three numbers have one byte each.
fn short_request(code: u8, upper: u8, lower: u8) -> Result<(Record, usize), Fault>
    ensures { (at : ℕ) (rest : NextRecord) → result ≡ settled (request_read (last_due at code upper) lower).outcome 4 rest }
{
    if is_request(code as u64) {
        return Ok((
            Record::Request {
                code,
                upper: upper as u32,
                lower: lower as u32,
            },
            4,
        ));
    }
    Err(Fault::Unknown)
}

// Where four bytes stand there: a number of one or two groups, or a request with three of one group. None where the bytes are to be read one by one.
fn at_a_glance(recording: &[u8], at: usize) -> Option<Result<(Record, usize), Fault>>
    requires { at + 4 ≤ length recording.now }
    ensures { IsSure result (found_at recording.now at) }
{
    let kind = recording[at];
    let first = recording[at + 1];
    let second = recording[at + 2];
    if 4 < kind {
        return None;
    }
    if kind == 0 {
        let third = recording[at + 3];
        if 127 < first {
            return None;
        }
        if 127 < second {
            return None;
        }
        if 127 < third {
            return None;
        }
        return Some(short_request(first, second, third));
    }
    if first < 128 {
        return Some(single(kind, first as u32, 2));
    }
    if second < 1 {
        return None;
    }
    if 127 < second {
        return None;
    }
    let n = (first % 128) as u32 + (second as u32) * 128;
    Some(single(kind, n, 3))
}

// What is found of a record that is begun, or due, by the step over one byte: a reader has read its first bytes, and the others stand from an offset on, where they are counted.
pub fn rest_at(begun: Reader, recording: &[u8], at: usize) -> Result<(Record, usize), Fault>
    ensures { result ≡ found_from begun at 0 (drop at recording.now) }
{
    let mut reader = begun;
    for i in at..recording.len() {
        let step = reader.byte(i as u64, recording[i]);
        match step.outcome {
            Ok(None) => reader = step.reader,
            Ok(Some(x)) => return Ok((x, i + 1 - at)),
            Err(bad) => return Err(bad.fault),
        }
    }
    Err(Fault::Cut)
}

// Before which index of a piece a glance may be taken: none while a record is cut, and else where four bytes stand.
pub fn glances_in(cut: bool, piece: &[u8]) -> usize
    ensures { result ≡ glances_in cut piece.now }
{
    if cut {
        0
    } else {
        piece.len().saturating_sub(3)
    }
}

// The reader that has the bytes of the record at hand: of one that was cut, or none.
pub fn reader_at(cut: bool, begun: Reader) -> Reader
    ensures { result ≡ cond cut begun fresh_reader }
{
    if cut { begun } else { Reader::fresh() }
}

// What is found at an index of a piece, and how many bytes it takes: the rest of a record that was cut, or the record that is due. The bound for glances is handed in, so that a loop over a piece need not ask at
// each record whether one was cut.
pub fn record_in(
    glances: usize,
    cut: bool,
    begun: Reader,
    piece: &[u8],
    at: usize,
) -> Result<(Record, usize), Fault>
    requires { glances ≤ glances_in cut piece.now }
    ensures { result ≡ found_from (cond cut begun fresh_reader) at 0 (drop at piece.now) }
{
    if at < glances {
        if let Some(found) = at_a_glance(piece, at) {
            return found;
        }
    }
    rest_at(reader_at(cut, begun), piece, at)
}

// What is found at an offset where a record is due, and how many bytes it has. Where no byte is left, that is no record: 22.
pub fn record_at(recording: &[u8], at: usize) -> Result<(Record, usize), Fault>
    ensures { result ≡ found_at recording.now at }
{
    record_in(
        glances_in(false, recording),
        false,
        Reader::fresh(),
        recording,
        at,
    )
}
