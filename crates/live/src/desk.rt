// A record given to the session that it is for.
ghost use Rattle.std.specs.Prelude.{◌≡◌, cond, ◌||◌, ◌+◌, ◌<◌};
ghost use Rattle.dispenser_rules.specs.Errors.{erred_by};
ghost use Rattle.dispenser_rules.specs.Session.{after};
ghost use Rattle.validator_rules.specs.Session.{after as taker_after};
ghost use Rattle.grading_rules.specs.Replay.{payer_declines, taker_declines};
ghost use Rattle.live_rules.specs.Live.{to_payer, to_taker, lived, lived_by};

use dispenser_rules::LastErrors;
use grading_rules::Desk;
use live_rules::Lived;
use recording::Record;
use refusals::Done;

// The dispenser session, after a record.
fn to_dispenser(
    session: dispenser_rules::Session,
    x: Record,
    room: &mut [u8],
) -> dispenser_rules::Outcome
    ensures { after result room.new ≡ to_payer session x room.old }
{
    match x {
        Record::Request { code, upper, lower } => {
            dispenser::request(session, code, upper, lower, room)
        }
        Record::DispenserByte(b) => dispenser::byte(session, b, room),
        Record::Tick(ms) => dispenser::tick(session, ms, room),
        Record::Clear => dispenser::clear(session),
        _ => dispenser_rules::Outcome {
            session,
            reply: Ok(Done {
                put: 0,
                closing: dispenser_rules::Closing::Nothing,
            }),
        },
    }
}

// The validator session, after a record. A request has no data.
fn to_validator(
    session: validator_rules::Session,
    x: Record,
    room: &mut [u8],
) -> validator_rules::Outcome
    ensures { taker_after result room.new ≡ to_taker session x room.old }
{
    match x {
        Record::ValidatorByte(b) => validator::byte(session, b, room),
        Record::Tick(ms) => validator::tick(session, ms, room),
        Record::Command(code) => validator::request(session, code, b"", room),
        _ => validator_rules::Outcome {
            session,
            reply: Ok(Done {
                put: 0,
                closing: validator_rules::Closing::Nothing,
            }),
        },
    }
}

// Did a session refuse?
fn declines(payer: dispenser_rules::Reply, taker: validator_rules::Reply) -> bool
    ensures { result ≡ (payer_declines payer || taker_declines taker) }
{
    payer.is_err() || taker.is_err()
}

// The last errors and the count of declined records, after what both sessions answered.
#[derive(Clone, Copy)]
struct Tally {
    errors: LastErrors,
    declined: u32,
}

fn tallied(
    errors: LastErrors,
    declined: u32,
    payer: dispenser_rules::Reply,
    taker: validator_rules::Reply,
) -> Tally
    requires { declined < 4_294_967_295 }
    ensures errors { result.errors ≡ erred_by errors payer }
    ensures declined { result.declined ≡ cond (payer_declines payer || taker_declines taker) (declined + 1) declined }
{
    let known = dispenser_books::erred(errors, payer);
    if declines(payer, taker) {
        return Tally {
            errors: known,
            declined: declined + 1,
        };
    }
    Tally {
        errors: known,
        declined,
    }
}

// Gives a record to the session that it is for, exactly as replay does. Each room holds the bytes to send on its line, as many as that session's reply says.
pub fn step(desk: Desk, x: Record, room: &mut [u8; 16], room255: &mut [u8; 255]) -> Lived
    requires declined_bound { desk.declined < 4_294_967_295 }
    requires records_bound { desk.records < 4_294_967_295 }
    ensures { lived result room.new room255.new ≡ lived_by desk x room.old room255.old }
{
    let payer = desk.dispenser;
    let taker = desk.validator;
    let known = desk.errors;
    let paid = to_dispenser(payer, x, room);
    let taken = to_validator(taker, x, room255);
    let dispenser = paid.session;
    let validator = taken.session;
    let answer = paid.reply;
    let said = taken.reply;
    let tally = tallied(known, desk.declined, answer, said);
    let errors = tally.errors;
    Lived {
        desk: Desk {
            dispenser,
            validator,
            errors,
            declined: tally.declined,
            records: desk.records + 1,
        },
        dispenser: answer,
        validator: said,
    }
}
