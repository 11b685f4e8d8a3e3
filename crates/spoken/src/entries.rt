// Records entered and told.
use dispenser_rules::Reply;
use grading_rules::Desk;
use live_rules::NotEntered;
use recording::{Reader, Record};
use words::Told;

// A desk, and how many bytes its recording has.
#[derive(Clone, Copy)]
pub struct Live {
    pub desk: Desk,
    pub written: u32,
}

impl Live {
    pub fn fresh() -> Live {
        Live {
            desk: Desk::fresh(),
            written: 0,
        }
    }
}

// What entering a record leaves: the desk, what the dispenser session answered, and what is told.
#[derive(Clone, Copy)]
pub struct Step {
    pub live: Live,
    pub reply: Reply,
    pub told: Told,
}

// A record entered, as a desk at work enters it, and told in a lent room.
pub fn enter(live: Live, x: Record, line: &mut [u8]) -> Step {
    let was = live.desk;
    let mut out = [0u8; 16];
    let mut room = [0u8; 16];
    let mut room255 = [0u8; 255];
    let entered = live::enter(was, live.written, x, &mut out, &mut room, &mut room255);
    let entry = entered.entry;
    let lived = entered.lived;
    let is = lived.desk;
    let reply = lived.dispenser;
    let other = lived.validator;
    let told = words::made(
        line,
        x,
        words::look(was),
        words::look(is),
        reply,
        other,
        &room,
        &room255,
    );
    let written = longer(live.written, entry);
    let next = Live { desk: is, written };
    Step {
        live: next,
        reply,
        told,
    }
}

// The size of the recording behind what was entered. It fits: else the record would not have been entered.
fn longer(written: u32, entry: Result<usize, NotEntered>) -> u32 {
    let left = (Reader::MOST - written as u64) as usize;
    match entry {
        Ok(n) => {
            if left < n {
                return written;
            }
            written + n as u32
        }
        Err(_) => written,
    }
}
