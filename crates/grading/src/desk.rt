// Replay of a recording, in pieces, through a dispenser session and a validator session, both fresh. The loop over a piece owns the parts of both sessions; what a
// record leaves in the books and among the bills is booked after its step. Each call is lent a room of its own: nothing that was sent is looked at.
ghost use Rattle.std.specs.Prelude.{◌≡◌, cond, ◌+◌, ◌≤◌, ◌<◌, length, drop};
ghost use Rattle.recording.specs.Reading.{reader_after};
ghost use Rattle.grading_rules.specs.Replay.{bad_findings};
ghost use Rattle.grading_rules.specs.Feeding.{broken_at, fed_piece, ended_replay, replay_of};
ghost use Rattle.grading_rules.specs.Promises.{Counted};
ghost use Rattle.grading_step.specs.Scaffolding.{shelf, joined};
ghost use Rattle.grading.specs.Scaffolding.{replay_on, is_begun, Unbroken, past_limit, Least};

use dispenser_rules::{Account, KeptRequest, LastErrors, Place, Requests};
use grading_rules::{Desk, Findings, Replaying};
use grading_step::{Books, Run, booked, step, written};
use recording::{Bad, Fault, Reader, glances_in, reader_at, record_in};
use validator_rules::Bills;

// A bad recording leaves its fault, and nothing else.
fn bad(why: Fault, at: u32) -> Findings
    ensures { result ≡ bad_findings why at }
{
    Findings {
        account: Account::fresh(),
        errors: LastErrors::fresh(),
        bills: [Bills(0); 24],
        table: [0; 120],
        declined: 0,
        records: 0,
        ending: Err(Bad { fault: why, at }),
    }
}

// After a fault: its number and the offset, and nothing else.
fn broken(why: Fault, at: u64) -> Replaying
    ensures { result ≡ broken_at why at }
{
    Replaying {
        desk: Desk::fresh(),
        reader: Reader {
            start: at,
            acc: 0,
            weight: 1,
            code: 0,
            upper: 0,
            place: recording::Place::Broken(why),
        },
        fed: 0,
    }
}

// The parts, put together again.
fn rejoined(
    run: Run,
    books: Books,
    slots: [KeptRequest; 32],
    bills: [Bills; 24],
    store: [u8; 21],
    store255: [u8; 255],
    table: [u8; 120],
    reader: Reader,
    fed: u64,
) -> Replaying
    requires declined_bound { run.declined ≤ 4_294_967_295 }
    requires records_bound { run.records ≤ 4_294_967_295 }
    requires fed_bound { fed ≤ 4_294_967_295 }
    ensures { result ≡ replay_on (joined run (shelf books slots) bills store store255 table) reader fed }
{
    let payer = run.payer;
    let asked = run.asked;
    let taker = run.taker;
    let cassettes = books.cassettes;
    let place = books.place;
    let errors = books.errors;
    let declined = run.declined as u32;
    let records = run.records as u32;
    let count = fed as u32;
    Replaying {
        desk: Desk {
            dispenser: dispenser_rules::Session {
                line: payer,
                asked,
                account: Account {
                    cassettes,
                    requests: Requests { place, slots },
                },
                store,
            },
            validator: validator_rules::Session {
                line: taker,
                bills,
                store: store255,
                table,
            },
            errors,
            declined,
            records,
        },
        reader,
        fed: count,
    }
}

// The offset of the record at hand.
fn start_of(cut: bool, begun: Reader, at: u64) -> u64
    ensures { result ≡ cond cut begun.start at }
{
    if cut { begun.start } else { at }
}

// The reader after the bytes of a piece from an index on, of which the first has that offset in the recording.
fn reader_after(begun: Reader, at: u64, piece: &[u8], from: usize) -> Reader
    requires { at + length piece.now ≤ 4_294_967_295 + from }
    ensures { result ≡ reader_after begun at (drop from piece.now) }
{
    let mut reader = begun;
    let mut p = at;
    for i in from..piece.len() {
        reader = reader.taken(p, piece[i]).reader;
        p += 1;
    }
    reader
}

// Is a record begun, that is, is no kind due?
fn is_begun(reader: Reader) -> bool
    ensures { result ≡ is_begun reader.place }
{
    match reader.place {
        recording::Place::Kind => false,
        _ => true,
    }
}

// A piece that is not empty and keeps within the limit, after no fault.
fn through(replay: Replaying, piece: &[u8]) -> Replaying
    requires counted { Counted replay }
    requires unbroken { Unbroken replay.reader.place }
    requires piece_nonzero { 0 < length piece.now }
    requires piece_bound { replay.fed + length piece.now ≤ 4_294_967_295 }
    ensures { result ≡ fed_piece replay piece.now }
{
    let begun = replay.reader;
    let fed = replay.fed as u64;
    let desk = replay.desk;
    let dispenser = desk.dispenser;
    let validator = desk.validator;
    let payer = dispenser.line;
    let asked = dispenser.asked;
    let taker = validator.line;
    let declined = desk.declined as u64;
    let records = desk.records as u64;
    let mut run = Run {
        payer,
        asked,
        taker,
        declined,
        records,
    };
    let account = dispenser.account;
    let cassettes = account.cassettes;
    let requests = account.requests;
    let place = requests.place;
    let errors = desk.errors;
    let mut books = Books {
        cassettes,
        place,
        errors,
    };
    let mut slots = requests.slots;
    let mut bills = validator.bills;
    let mut store = dispenser.store;
    let mut store255 = validator.store;
    let mut table = validator.table;
    let mut cut = is_begun(begun);
    let mut glances = glances_in(cut, piece);
    let all = glances_in(false, piece);
    let mut i: usize = 0;
    // It counts no index: a record moves it on by as many bytes as the record has, which a `for` over the piece can't say.
    while i < piece.len() {
        let found = record_in(glances, cut, begun, piece, i);
        match found {
            Err(why) => {
                let at = fed + i as u64;
                match why {
                    Fault::Cut => {
                        let reader = reader_after(reader_at(cut, begun), at, piece, i);
                        let end = fed + piece.len() as u64;
                        return rejoined(
                            run, books, slots, bills, store, store255, table, reader, end,
                        );
                    }
                    _ => {
                        return broken(why, start_of(cut, begun, at));
                    }
                }
            }
            Ok((x, size)) => {
                let moved = step(run, x, &mut store, &mut store255, &mut table);
                let following = moved.run;
                run = following;
                let entry = moved.entry;
                let asked = run.asked;
                let entered = booked(books, asked, entry);
                books = entered;
                let place = books.place;
                let payer = run.payer;
                let noted = written(place, asked, payer.handed, entry);
                let slot = noted.slot;
                let request = noted.request;
                if slot < Requests::MOST {
                    slots[slot] = request;
                }
                let bill = moved.bill;
                if bill.is_some() {
                    let counts = validator::booked(bills, bill);
                    bills = counts;
                }
                i += size;
                cut = false;
                glances = all;
            }
        }
    }
    let reader = reader_at(cut, begun);
    let end = fed + piece.len() as u64;
    rejoined(
        run, books, slots, bills, store, store255, table, reader, end,
    )
}

// The lesser of two lengths.
fn least(a: usize, b: usize) -> usize
    ensures { Least a b result }
{
    a.min(b)
}

// A byte past the limit.
fn past(replay: Replaying) -> Replaying
    ensures { result ≡ past_limit replay }
{
    let reader = replay.reader;
    let place = reader.place;
    match place {
        recording::Place::Broken(why) => broken(why, reader.start),
        _ => broken(Fault::Long, Reader::MOST),
    }
}

// A piece that is not empty, after no fault: as far as the limit, and then 24 where a byte is past it.
fn within(replay: Replaying, piece: &[u8]) -> Replaying
    requires counted { Counted replay }
    requires unbroken { Unbroken replay.reader.place }
    requires piece_nonzero { 0 < length piece.now }
    ensures { result ≡ fed_piece replay piece.now }
{
    let left = (Reader::MOST - replay.fed as u64) as usize;
    if left == 0 {
        return past(replay);
    }
    let n = least(piece.len(), left);
    let after = through(replay, &piece[0..n]);
    if n == piece.len() {
        return after;
    }
    past(after)
}

// A piece of the recording, of any size, after those before it.
pub fn feed(replay: Replaying, piece: &[u8]) -> Replaying
    requires { Counted replay }
    ensures { result ≡ fed_piece replay piece.now }
{
    if piece.is_empty() {
        return replay;
    }
    let reader = replay.reader;
    let place = reader.place;
    match place {
        recording::Place::Broken(why) => broken(why, reader.start),
        _ => within(replay, piece),
    }
}

// The recording has ended.
pub fn ended(replay: Replaying) -> Findings
    requires { Counted replay }
    ensures { result ≡ ended_replay replay }
{
    let reader = replay.reader;
    match reader.ended() {
        Ok(()) => {
            let desk = replay.desk;
            let dispenser = desk.dispenser;
            let validator = desk.validator;
            let account = dispenser.account;
            let errors = desk.errors;
            let bills = validator.bills;
            let table = validator.table;
            Findings {
                account,
                errors,
                bills,
                table,
                declined: desk.declined,
                records: desk.records,
                ending: Ok(()),
            }
        }
        Err(Bad { fault, at }) => bad(fault, at as u32),
    }
}

// The replay of a recording in one piece: fed, and ended.
pub fn replay(recording: &[u8]) -> Findings
    ensures { result ≡ replay_of recording.now }
{
    ended(feed(Replaying::fresh(), recording))
}
