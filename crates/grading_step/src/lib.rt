// What a record does: the parts of both sessions, each record given to the session that it is for, and what it books. Whoever replays a recording owns the parts, and books
// after the step. Each call is lent a room of its own: nothing that was sent is looked at.
#![tactic(auto)]

ghost use Rattle.std.specs.Prelude.{◌≡◌, false, cond, ◌||◌, List, ℕ, ◌+◌, ◌<◌};
ghost use Rattle.validator_rules.specs.Bills.{booked_by};
ghost use Rattle.validator_rules.specs.declared.bills.Bills.{Bills};
ghost use Rattle.recording.specs.declared.Record.TheVariants.{Request, DispenserByte, Tick, ValidatorByte, Command, Clear};
ghost use Rattle.grading_rules.specs.Replay.{payer_declines, taker_declines, given};
ghost use Rattle.grading_step.specs.Scaffolding.{Short, Shelf, run_of, booked, written_of, entered, joined};
ghost use Rattle.grading_step.specs.declared.Entry.TheVariants.{Heard};
ghost use Rattle.dispenser_rules.specs.declared.session.Asked.{Asked};

use dispenser_rules::{Asked, Cassettes, LastErrors, Place, Written};
use recording::Record;
use refusals::Done;

// What changes with each record, but for the stores and what is booked: the payer's line (the dispenser's) and its command, the taker's line (the validator's), and
// the counts.
#[derive(Clone, Copy)]
pub struct Run {
    pub payer: exchange_rules::Line,
    pub asked: Asked,
    pub taker: validator_rules::Line,
    pub declined: u64,
    pub records: u64,
}

// The parts, field by field. Moved whole, a struct with an enum in it is copied through memory for every record.
fn assembled(
    payer: exchange_rules::Line,
    asked: Asked,
    taker: validator_rules::Line,
    declined: u64,
    records: u64,
) -> Run
    ensures { result ≡ run_of payer asked taker declined records }
{
    let phase = payer.phase;
    let stand = taker.phase;
    Run {
        payer: exchange_rules::Line {
            left: payer.left,
            quiet: payer.quiet,
            accepted: payer.accepted,
            handed: payer.handed,
            naks: payer.naks,
            gathered: payer.gathered,
            doubts: payer.doubts,
            phase,
        },
        asked: Asked {
            code: asked.code,
            upper: asked.upper,
            lower: asked.lower,
            span: asked.span,
        },
        taker: validator_rules::Line {
            left: taker.left,
            accepted: taker.accepted,
            code: taker.code,
            last: taker.last,
            gathered: taker.gathered,
            length: taker.length,
            phase: stand,
        },
        declined,
        records,
    }
}

// What is booked of the dispenser: the sums of both cassettes, where the next request is kept, and the last error of each cassette. The slots of the kept requests stand apart, so
// that nothing moves them.
#[derive(Clone, Copy)]
pub struct Books {
    pub cassettes: Cassettes,
    pub place: Place,
    pub errors: LastErrors,
}

// What a record books: nothing, what a request answered, or what a byte or a tick did. Three meanings, of which none is a failure: no Option.
#[derive(Clone, Copy)]
pub enum Entry {
    Nothing,
    Asked(dispenser_rules::Reply),
    Heard(dispenser_rules::Reply),
}

// What a record leaves.
#[derive(Clone, Copy)]
pub struct Moved {
    pub run: Run,
    pub entry: Entry,
    // The type of the bill that it credits, if it credits one.
    pub bill: Option<usize>,
}

// Did the dispenser session refuse?
fn payer_declines(reply: dispenser_rules::Reply) -> bool
    ensures { result ≡ payer_declines reply }
{
    reply.is_err()
}

// Did the validator session refuse?
fn taker_declines(reply: validator_rules::Reply) -> bool
    ensures { result ≡ taker_declines reply }
{
    reply.is_err()
}

// Is one of the two so?
fn either(a: bool, b: bool) -> bool
    ensures { result ≡ (a || b) }
{
    a || b
}

// One declined record more, if it was.
fn counted(n: u64, declined: bool) -> u64
    requires { n < 4_294_967_296 }
    ensures { result ≡ cond declined (n + 1) n }
{
    if declined {
        return n + 1;
    }
    n
}

// What the dispenser session made of a byte or a tick: something to book where it closed a command or handed it over again, and else nothing. The books are passed over where there
// is nothing. The answer is built anew: moved whole, it is carried from record to record. Of the bytes put only this is read, whether they are more than one; and only where the
// command may have been handed over again.
fn heard(reply: dispenser_rules::Reply, again: bool) -> Entry
    requires { again ≡ false → Short reply }
    ensures { (a : Shelf) (c : Asked) (n : ℕ) → entered a c n result ≡ entered a c n (Heard reply) }
{
    match reply {
        Err(_) => Entry::Nothing,
        Ok(Done { put, closing }) => match closing {
            dispenser_rules::Closing::Nothing => {
                if again {
                    if 1 < put {
                        return Entry::Heard(Ok(Done {
                            put: 2,
                            closing: dispenser_rules::Closing::Nothing,
                        }));
                    }
                    return Entry::Nothing;
                }
                Entry::Nothing
            }
            dispenser_rules::Closing::Answered(answer, class) => Entry::Heard(Ok(Done {
                put: 2,
                closing: dispenser_rules::Closing::Answered(answer, class),
            })),
            dispenser_rules::Closing::Refused => Entry::Heard(Ok(Done {
                put: 2,
                closing: dispenser_rules::Closing::Refused,
            })),
            dispenser_rules::Closing::Unknown => Entry::Heard(Ok(Done {
                put: 2,
                closing: dispenser_rules::Closing::Unknown,
            })),
        },
    }
}

// A request to the dispenser.
fn requested(run: Run, code: u8, upper: u32, lower: u32) -> Moved
    requires declined_bound { run.declined < 4_294_967_296 }
    requires records_bound { run.records < 4_294_967_296 }
    ensures { (a : Shelf) (bs : List Bills) (store store255 table : List ℕ) → joined result.run (entered a result.run.asked result.run.payer.handed result.entry) (booked_by bs result.bill) store store255 table ≡ given (joined run a bs store store255 table) (Request code upper lower) }
{
    let payer = run.payer;
    let asked = run.asked;
    let taker = run.taker;
    let mut room = [0u8; 16];
    let step = dispenser::step_request(payer, asked, code, upper, lower, &mut room);
    let next = step.line;
    let new = step.asked;
    let reply = step.reply;
    let declined = counted(run.declined, payer_declines(reply));
    let records = run.records + 1;
    Moved {
        run: assembled(next, new, taker, declined, records),
        entry: Entry::Asked(reply),
        bill: None,
    }
}

// A byte from the dispenser.
fn dispenser_byte(run: Run, store: &mut [u8; 21], b: u8) -> Moved
    requires declined_bound { run.declined < 4_294_967_296 }
    requires records_bound { run.records < 4_294_967_296 }
    ensures { (a : Shelf) (bs : List Bills) (store255 table : List ℕ) → joined result.run (entered a result.run.asked result.run.payer.handed result.entry) (booked_by bs result.bill) store.new store255 table ≡ given (joined run a bs store.old store255 table) (DispenserByte b) }
{
    let payer = run.payer;
    let asked = run.asked;
    let taker = run.taker;
    let mut room = [0u8; 16];
    let step = dispenser::step_byte(payer, asked, store, b, &mut room);
    let next = step.line;
    let reply = step.reply;
    let declined = counted(run.declined, payer_declines(reply));
    let records = run.records + 1;
    let again = payer.handed != next.handed;
    let entry = heard(reply, again);
    Moved {
        run: assembled(next, asked, taker, declined, records),
        entry,
        bill: None,
    }
}

// Milliseconds, for both sessions. A tick that either refuses is declined once.
fn ticked(run: Run, store255: &mut [u8; 255], ms: u32) -> Moved
    requires declined_bound { run.declined < 4_294_967_296 }
    requires records_bound { run.records < 4_294_967_296 }
    ensures { (a : Shelf) (bs : List Bills) (store table : List ℕ) → joined result.run (entered a result.run.asked result.run.payer.handed result.entry) (booked_by bs result.bill) store store255.new table ≡ given (joined run a bs store store255.old table) (Tick ms) }
{
    let payer = run.payer;
    let asked = run.asked;
    let taker = run.taker;
    let mut room = [0u8; 16];
    let step = dispenser::step_tick(payer, asked, ms, &mut room);
    let next = step.line;
    let reply = step.reply;
    let mut room255 = [0u8; 255];
    let taken = validator::step_tick(taker, store255, ms, &mut room255);
    let following = taken.line;
    let said = taken.reply;
    let bill = taken.bill;
    let refused = either(payer_declines(reply), taker_declines(said));
    let declined = counted(run.declined, refused);
    let records = run.records + 1;
    let entry = heard(reply, false);
    Moved {
        run: assembled(next, asked, following, declined, records),
        entry,
        bill,
    }
}

// A byte from the validator.
fn validator_byte(run: Run, store255: &mut [u8; 255], table: &mut [u8; 120], b: u8) -> Moved
    requires declined_bound { run.declined < 4_294_967_296 }
    requires records_bound { run.records < 4_294_967_296 }
    ensures { (a : Shelf) (bs : List Bills) (store : List ℕ) → joined result.run (entered a result.run.asked result.run.payer.handed result.entry) (booked_by bs result.bill) store store255.new table.new ≡ given (joined run a bs store store255.old table.old) (ValidatorByte b) }
{
    let payer = run.payer;
    let asked = run.asked;
    let taker = run.taker;
    let mut room255 = [0u8; 255];
    let step = validator::step_byte(taker, store255, table, b, &mut room255);
    let next = step.line;
    let reply = step.reply;
    let bill = step.bill;
    let declined = counted(run.declined, taker_declines(reply));
    let records = run.records + 1;
    Moved {
        run: assembled(payer, asked, next, declined, records),
        entry: Entry::Nothing,
        bill,
    }
}

// A request to the validator, without data.
fn commanded(run: Run, code: u8) -> Moved
    requires declined_bound { run.declined < 4_294_967_296 }
    requires records_bound { run.records < 4_294_967_296 }
    ensures { (a : Shelf) (bs : List Bills) (store store255 table : List ℕ) → joined result.run (entered a result.run.asked result.run.payer.handed result.entry) (booked_by bs result.bill) store store255 table ≡ given (joined run a bs store store255 table) (Command code) }
{
    let payer = run.payer;
    let asked = run.asked;
    let taker = run.taker;
    let mut room255 = [0u8; 255];
    let step = validator::step_request(taker, code, b"", &mut room255);
    let next = step.line;
    let reply = step.reply;
    let declined = counted(run.declined, taker_declines(reply));
    let records = run.records + 1;
    Moved {
        run: assembled(payer, asked, next, declined, records),
        entry: Entry::Nothing,
        bill: None,
    }
}

// The operator clears the dispenser's line.
fn cleared(run: Run) -> Moved
    requires declined_bound { run.declined < 4_294_967_296 }
    requires records_bound { run.records < 4_294_967_296 }
    ensures { (a : Shelf) (bs : List Bills) (store store255 table : List ℕ) → joined result.run (entered a result.run.asked result.run.payer.handed result.entry) (booked_by bs result.bill) store store255 table ≡ given (joined run a bs store store255 table) Clear }
{
    let payer = run.payer;
    let asked = run.asked;
    let taker = run.taker;
    let step = dispenser::step_clear(payer);
    let next = step.line;
    let reply = step.reply;
    let declined = counted(run.declined, payer_declines(reply));
    let records = run.records + 1;
    Moved {
        run: assembled(next, asked, taker, declined, records),
        entry: Entry::Nothing,
        bill: None,
    }
}

// A record, given to the session that it is for.
pub fn step(
    run: Run,
    x: Record,
    store: &mut [u8; 21],
    store255: &mut [u8; 255],
    table: &mut [u8; 120],
) -> Moved
    requires declined_bound { run.declined < 4_294_967_296 }
    requires records_bound { run.records < 4_294_967_296 }
    ensures { (a : Shelf) (bs : List Bills) → joined result.run (entered a result.run.asked result.run.payer.handed result.entry) (booked_by bs result.bill) store.new store255.new table.new ≡ given (joined run a bs store.old store255.old table.old) x }
{
    match x {
        Record::Request { code, upper, lower } => requested(run, code, upper, lower),
        Record::DispenserByte(b) => dispenser_byte(run, store, b),
        Record::Tick(ms) => ticked(run, store255, ms),
        Record::ValidatorByte(b) => validator_byte(run, store255, table, b),
        Record::Command(code) => commanded(run, code),
        Record::Clear => cleared(run),
    }
}

// The books after what a record books.
pub fn booked(books: Books, asked: Asked, entry: Entry) -> Books
    ensures { result ≡ booked books asked entry }
{
    let were = books.cassettes;
    let held = books.place;
    let known = books.errors;
    match entry {
        Entry::Nothing => books,
        Entry::Asked(reply) => {
            let errors = dispenser_books::erred(known, reply);
            let place = dispenser_books::advance(held, asked, reply);
            Books {
                cassettes: dispenser_books::booked_request(were, asked, reply),
                place,
                errors,
            }
        }
        Entry::Heard(reply) => {
            let errors = dispenser_books::erred(known, reply);
            Books {
                cassettes: dispenser_books::booked(were, asked, reply),
                place: held,
                errors,
            }
        }
    }
}

// What a record writes down of a request.
pub fn written(place: Place, asked: Asked, handed: u32, entry: Entry) -> Written
    ensures { result ≡ written_of place asked handed entry }
{
    match entry {
        Entry::Nothing => dispenser_books::unwritten(),
        Entry::Asked(reply) => dispenser_books::write_down(place, asked, handed, reply),
        Entry::Heard(reply) => dispenser_books::write_down(place, asked, handed, reply),
    }
}
