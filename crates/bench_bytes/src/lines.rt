// Lines that put every byte in turn at a place, counted from 0, of what the line gives, and tell how each fared. Bytes in a row that fare
// alike are told together, and at the end how many were taken.
//
//     each byte at 4, command, tens: 04 50 02 45 31 30 03 11
//     each byte at 4, answer, error: 01 50 02 44 30 03 24
//     each byte at 1, frame, address: 02 03 06 33 DA 81
//     each byte at 1, body, stacked: 81 00
//     each byte at 1, request, upper: 45 0A 00
//
// A request is its code and its two counts. The check of a frame is put right for every byte, except at the check's own place. Lines that
// turn every bit of a CCNET frame, one at a time, and tell how many of the frames so made are refused; and the check of bytes.
//
//     turn each bit, poll: 02 03 06 33 DA 81
//     check, of nine bytes: 31 32 33 34 35 36 37 38 39
ghost use Rattle.std.specs.Prelude.{◌≤◌};

use crate::fares;
use crate::fares::Fare;
use std::io;
use std::io::Write;

// Does a line with this verb try anything?
pub(crate) fn is_tried(verb: u8) -> bool {
    matches!(verb, b'e' | b't' | b'c')
}

pub(crate) fn run<W: Write>(
    out: &mut W,
    verb: u8,
    line: &[u8],
    given: &mut [u8],
) -> io::Result<()> {
    match verb {
        b'e' => try_each(
            out,
            sheet::letter(line, 4),
            sheet::number(line, 3) as usize,
            given,
        ),
        b't' => turn_each(out, given),
        _ => print_check(out, ccnet_check::check_of(given)),
    }
}

// Low byte first.
fn print_check<W: Write>(out: &mut W, c: u16) -> io::Result<()> {
    sheet::print_bytes(out, &[(c % 256) as u8, (c / 256) as u8])?;
    sheet::print_text(out, b"\n")
}

// Every byte at the place, and the runs of bytes that fare alike.
fn try_each<W: Write>(out: &mut W, kind: u8, place: usize, given: &mut [u8]) -> io::Result<()> {
    let mut first = 0;
    let mut was = tried(kind, 0, place, given);
    let mut taken = u32::from(fares::is_taken(was));
    for b in 1..=255 {
        let now = tried(kind, b, place, given);
        taken += u32::from(fares::is_taken(now));
        if now != was {
            print_run(out, first, b - 1, was)?;
            first = b;
            was = now;
        }
    }
    print_run(out, first, 255, was)?;
    sheet::print_form(out, b" taken #\n", &[taken])
}

fn print_run<W: Write>(out: &mut W, first: u8, last: u8, fare: Fare) -> io::Result<()> {
    if first == last {
        sheet::print_form(out, b" $", &[first as u32])?;
    } else {
        sheet::print_form(out, b" $ to $", &[first as u32, last as u32])?;
    }
    fares::print(out, fare)
}

// How a byte fares at the place. What is given keeps it.
fn tried(kind: u8, b: u8, place: usize, given: &mut [u8]) -> Fare {
    change(kind, b, place, given);
    fares::of(kind, given)
}

// Puts a byte at the place, and the check right.
fn change(kind: u8, b: u8, place: usize, given: &mut [u8]) {
    if given.len() <= place {
        return;
    }
    let turned = given[place] ^ b;
    put(b, place, given);
    match kind {
        b'f' => put_check(place, given),
        b'c' | b'a' => turn_check(turned, place, given),
        _ => {}
    }
}

// The check of a frame of the dispenser's turns with each bit that turns before it.
fn turn_check(turned: u8, place: usize, given: &mut [u8]) {
    if let Some((check, before)) = given.split_last_mut() {
        if place < before.len() {
            *check ^= turned;
        }
    }
}

// The two check bytes of a CCNET frame, low byte first, behind the bytes that they are of.
fn put_check(place: usize, given: &mut [u8]) {
    let n = given.len();
    if n < 3 {
        return;
    }
    let end = n - 2;
    if place < end {
        let c = ccnet_check::check_of(&given[0..end]);
        put((c % 256) as u8, end, given);
        put((c / 256) as u8, n - 1, given);
    }
}

fn put(b: u8, place: usize, given: &mut [u8]) {
    if let Some(held) = given.get_mut(place) {
        *held = b;
    }
}

// Every bit of the bytes, of which there are 32 at most.
fn turn_each<W: Write>(out: &mut W, given: &mut [u8]) -> io::Result<()> {
    let mut refused: u32 = 0;
    for k in 0..256 {
        refused += u32::from(is_refused_turned(k, given));
    }
    sheet::print_form(out, b" refused #\n", &[refused])
}

// Is the frame with that bit turned refused? The byte is put back.
fn is_refused_turned(k: usize, given: &mut [u8]) -> bool {
    let i = k / 8;
    if given.len() <= i {
        return false;
    }
    let was = given[i];
    given[i] ^= 1 << (k % 8);
    let fare = fares::of(b'f', given);
    given[i] = was;
    !fares::is_taken(fare)
}
