// A record and its sentence. A code that has a name of its own stands in a list, in the order of the sentences.
ghost use Rattle.std.specs.Prelude.{◌<◌, length, IfSome};

use dispenser_frame_rules::{
    PAY_BOTH, PAY_LOWER, PAY_UPPER, PURGE, STATUS, TEST_LOWER, TEST_UPPER,
};
use recording::Record;
use text::Said;

// The requests without counts: status, purge, test upper and test lower.
const COUNTLESS: [u8; 4] = [STATUS, PURGE, TEST_UPPER, TEST_LOWER];

// The commands to the validator: poll, reset, stack, return, hold and table.
const COMMANDS: [u8; 6] = [0x33, 0x30, 0x35, 0x36, 0x38, 0x41];

// How many stand before a code in a list, where it is in it.
fn place_of(list: &[u8], code: u8) -> Option<usize>
    ensures { IfSome result (λ i. i < length list.now) }
{
    list.iter().position(|&listed| listed == code)
}

// The code that has so many before it.
fn code_at(list: &[u8], before: usize) -> u8 {
    list.get(before).copied().unwrap_or(0)
}

// A record, as "request pay upper 10", "dispenser 06h" or "tick 1000".
pub fn said(x: Record) -> Said {
    match x {
        Record::Request { code, upper, lower } => request(code, upper as u64, lower as u64),
        Record::DispenserByte(b) => Said::with(Said::DISPENSER_BYTE, [b as u64, 0, 0, 0]),
        Record::Tick(ms) => Said::with(Said::TICK, [ms as u64, 0, 0, 0]),
        Record::ValidatorByte(b) => Said::with(Said::VALIDATOR_BYTE, [b as u64, 0, 0, 0]),
        Record::Command(code) => command(code),
        Record::Clear => Said::alone(Said::CLEAR),
    }
}

// A request by its name, where that and its counts say all of it; else by its code and both counts.
fn request(code: u8, upper: u64, lower: u64) -> Said {
    match (code, upper, lower) {
        (PAY_BOTH, _, _) => Said::with(Said::PAY_BOTH, [upper, lower, 0, 0]),
        (PAY_UPPER, _, 0) => Said::with(Said::PAY_UPPER, [upper, 0, 0, 0]),
        (_, 0, 0) => countless(code),
        (PAY_LOWER, 0, _) => Said::with(Said::PAY_LOWER, [lower, 0, 0, 0]),
        _ => Said::with(Said::REQUEST, [code as u64, upper, lower, 0]),
    }
}

// A request whose counts are 0.
fn countless(code: u8) -> Said {
    match place_of(&COUNTLESS, code) {
        Some(i) => Said::alone(Said::STATUS + i),
        None => Said::with(Said::REQUEST, [code as u64, 0, 0, 0]),
    }
}

fn command(code: u8) -> Said {
    match place_of(&COMMANDS, code) {
        Some(i) => Said::alone(Said::POLL + i),
        None => Said::with(Said::COMMAND, [code as u64, 0, 0, 0]),
    }
}

fn byte(n: u64) -> u8 {
    (n % 256) as u8
}

fn count(n: u64) -> u32 {
    (n % 4_294_967_296) as u32
}

fn asked(code: u8, upper: u64, lower: u64) -> Record {
    Record::Request {
        code,
        upper: count(upper),
        lower: count(lower),
    }
}

// The record that a sentence says, of those from `Said::FIRST` to `Said::LAST`, with its values.
pub(crate) fn record(sentence: usize, values: [u64; 4]) -> Record {
    let n = values[0];
    match sentence {
        Said::DISPENSER_BYTE => Record::DispenserByte(byte(n)),
        Said::TICK => Record::Tick(count(n)),
        Said::VALIDATOR_BYTE => Record::ValidatorByte(byte(n)),
        Said::CLEAR => Record::Clear,
        Said::COMMAND => Record::Command(byte(n)),
        Said::POLL.. => Record::Command(code_at(&COMMANDS, sentence - Said::POLL)),
        _ => requested(sentence, n, values[1], values[2]),
    }
}

// A request.
fn requested(sentence: usize, n: u64, second: u64, third: u64) -> Record {
    match sentence {
        Said::PAY_UPPER => asked(PAY_UPPER, n, 0),
        Said::PAY_LOWER => asked(PAY_LOWER, 0, n),
        Said::PAY_BOTH => asked(PAY_BOTH, n, second),
        Said::REQUEST => asked(byte(n), second, third),
        Said::STATUS.. => asked(code_at(&COUNTLESS, sentence - Said::STATUS), 0, 0),
        _ => asked(0, 0, 0),
    }
}
