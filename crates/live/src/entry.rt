// A record entered: its bytes put into a lent room, for the recording, and the record given to the session that it is for. The recording and the desk never part.
ghost use Rattle.std.specs.Prelude.{◌≡◌, ◌≤◌};
ghost use Rattle.live_rules.specs.Entering.{is_full, noted, noted_by, entered, entered_by, whole_bytes};

use crate::desk::step;
use grading_rules::Desk;
use live_rules::{Entered, Lived, NotEntered};
use recording::{Place, Reader, Record};
use refusals::Done;

// The most bytes that a recording may have, and so the most records.
const MOST: u32 = 4_294_967_295;

// May a recording of so many bytes not grow by the size of a record, or a count by one? Of a desk that replays its recording only the bytes can be too many.
fn is_full(written: u32, records: u32, declined: u32, size: usize) -> bool
    ensures { result ≡ (is_full written records declined size).test }
{
    let left = (MOST - written) as usize;
    if left < size {
        return true;
    }
    if MOST <= records {
        return true;
    }
    MOST <= declined
}

// The record's bytes at the room's start, unless the recording is full or the writer refuses.
fn note(
    written: u32,
    records: u32,
    declined: u32,
    x: Record,
    out: &mut [u8],
) -> Result<usize, NotEntered>
    ensures { noted result out.new ≡ noted_by written records declined x out.old }
{
    if is_full(written, records, declined, record_writer::length_of(x)) {
        return Err(NotEntered::Full);
    }
    match record_writer::write(x, out) {
        Ok(n) => Ok(n),
        Err(why) => Err(NotEntered::Refused(why)),
    }
}

// Enters a record at a desk whose recording has so many bytes: those of the record stand at the start of `out`, and the desk has taken its step. Append them to the recording before
// anything is sent.
pub fn enter(
    desk: Desk,
    written: u32,
    x: Record,
    out: &mut [u8],
    room: &mut [u8; 16],
    room255: &mut [u8; 255],
) -> Entered
    ensures { entered result out.new room.new room255.new ≡ entered_by desk written x out.old room.old room255.old }
{
    let entry = note(written, desk.records, desk.declined, x, out);
    match entry {
        Ok(_) => {
            let lived = step(desk, x, room, room255);
            Entered { entry, lived }
        }
        Err(_) => Entered {
            entry,
            lived: Lived {
                desk,
                dispenser: Ok(Done {
                    put: 0,
                    closing: dispenser_rules::Closing::Nothing,
                }),
                validator: Ok(Done {
                    put: 0,
                    closing: validator_rules::Closing::Nothing,
                }),
            },
        },
    }
}

// How many bytes of a recording are whole records, after a replay of it that found no fault. What stands behind them is a record that was begun: cut it off, and go on with the replay's desk.
pub fn whole_bytes(reader: Reader, fed: u32) -> u32
    requires { reader.start ≤ 4_294_967_295 }
    ensures { result ≡ whole_bytes reader fed }
{
    let place = reader.place;
    match place {
        Place::Kind => fed,
        _ => reader.start as u32,
    }
}
