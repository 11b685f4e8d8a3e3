// The device's end: the pretend dispenser, and what came of each call.
ghost use Rattle.std.specs.Prelude.{◌≤◌};

use crate::moves;
use crate::moves::Move;
use crate::ways::Way;
use dispenser_frame_rules::Answer;
use pretend_rules::{Device, Happening, Outcome, Reply};
use std::io;
use std::io::Write;

#[derive(Clone, Copy)]
enum Call {
    Byte(u8),
    Tick(u32),
    Tell(Answer),
}

// Every call of a move, in turn.
pub fn moved<W: Write>(
    out: &mut W,
    word: &[u8],
    device: Device,
    down: &mut Way,
    up: &mut Way,
) -> io::Result<Device> {
    let Some(what) = moves::what(b'd', word) else {
        return Ok(device);
    };
    let mut now = device;
    for left in (1..=moves::calls(what, word, down, up)).rev() {
        now = one(out, what, call_of(what, word, left, down), now, up)?;
    }
    Ok(now)
}

// The call that has so many behind it, itself among them.
fn call_of(what: Move, word: &[u8], left: u32, down: &mut Way) -> Call {
    match what {
        Move::Hear => Call::Byte(down.next()),
        Move::Wait => Call::Tick(moves::number(word, 0)),
        Move::Tell => Call::Tell(moves::answer(word)),
        Move::Alone => purge(left % moves::PURGE),
        _ => Call::Byte(moves::byte(word, 0)),
    }
}

// Of an exchange with the device alone, by how many calls of it are left, and 0 for all.
fn purge(left: u32) -> Call {
    if left == 2 {
        return Call::Tell(Answer::Purged { error: 0x30 });
    }
    let bytes = [0x04u8, 0x06, 0x00, 0x11, 0x03, 0x44, 0x02, 0x50];
    Call::Byte(bytes[(left % 8) as usize])
}

// How much room is lent: in an exchange with the device alone, enough.
fn size(what: Move, up: &Way) -> usize
    ensures { result ≤ 24 }
{
    if what == Move::Alone {
        sheet::SHORT
    } else {
        up.room()
    }
}

// Makes a call, and shows what it answered; what it put is on its way. Of an exchange with the device alone nothing is shown.
fn one<W: Write>(
    out: &mut W,
    what: Move,
    call: Call,
    device: Device,
    up: &mut Way,
) -> io::Result<Device> {
    let mut lent = sheet::fresh_room::<{ sheet::SHORT }>();
    let outcome = made(call, device, &mut lent[..size(what, up)]);
    if what != Move::Alone {
        show(out, outcome.reply, &lent, up)?;
    }
    Ok(outcome.device)
}

fn made(call: Call, device: Device, lent: &mut [u8]) -> Outcome {
    match call {
        Call::Byte(b) => pretend::byte(device, b, lent),
        Call::Tick(ms) => pretend::tick(device, ms, lent),
        Call::Tell(answer) => pretend::tell(device, answer, lent),
    }
}

fn show<W: Write>(out: &mut W, reply: Reply, lent: &[u8], up: &mut Way) -> io::Result<()> {
    match reply {
        Ok(done) => {
            up.put_on(out, b"device puts", done.put, lent)?;
            happened(out, done.closing)
        }
        Err(why) => sheet::print_form(out, b"device refused #\n", &[why.number() as u32]),
    }
}

fn happened<W: Write>(out: &mut W, what: Happening) -> io::Result<()> {
    match what {
        Happening::Nothing => Ok(()),
        Happening::Taken { code, upper, lower } => {
            sheet::print_form(out, b"device takes $ # #\n", &[code as u32, upper, lower])
        }
        Happening::Ended => sheet::print_text(out, b"device ends\n"),
    }
}
