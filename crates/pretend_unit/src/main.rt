// The pretend dispenser as a filter, for a desk without hardware. Each line of standard input is one event at the device's end of the line; standard output says which bytes go to the line, what the
// device took and when an exchange is over, and then done.
//
//     x04h                     a byte from the host
//     w1000                    so many milliseconds pass
//     t45h,10,10,30h,30h,0     the answer's fields, to the code that it waits for (docs/PRETEND.md)
#![tactic(auto)]

use pretend_rules::Device;
use sheet_device::Way;
use std::io;
use std::io::{Read, Write};

// The longest line is that of a payout from both cassettes. As a word of a run it has the letter of its end before it.
const LINE: usize = 64;

// The device, and the line that is begun.
#[derive(Clone, Copy)]
struct Unit {
    device: Device,
    line: [u8; LINE],
    size: usize,
}

fn main(rt: HostRuntime) -> io::Result<()> {
    let mut input = rt.stdin();
    let mut out = rt.stdout();
    let mut now = Unit {
        device: Device::fresh(),
        line: [b'd'; LINE],
        size: 1,
    };
    for _ in 0..u64::MAX {
        match turn(&mut input, &mut out, now)? {
            Some(next) => now = next,
            None => break,
        }
    }
    Ok(())
}

// One byte of a line; none where the input has ended.
fn turn<R: Read, W: Write>(input: &mut R, out: &mut W, unit: Unit) -> io::Result<Option<Unit>> {
    let mut read = [0u8; 1];
    if input.read(&mut read)? == 0 {
        return Ok(None);
    }
    match read[0] {
        b'\n' => Ok(Some(said(out, unit)?)),
        b => Ok(Some(kept(unit, b))),
    }
}

// A byte behind those before it; a line that is too long is cut.
fn kept(unit: Unit, b: u8) -> Unit {
    let mut now = unit;
    if now.size < LINE {
        now.line[now.size] = b;
        now.size += 1;
    }
    now
}

// A line is whole: the device makes of it what it makes of a word of a run.
fn said<W: Write>(out: &mut W, unit: Unit) -> io::Result<Unit> {
    let device = event(out, unit.device, &unit.line, unit.size)?;
    sheet::print_text(out, b"done\n")?;
    Ok(Unit {
        device,
        size: 1,
        ..unit
    })
}

// Nothing is on its way to the device, and what it puts is printed.
fn event<W: Write>(out: &mut W, device: Device, line: &[u8], size: usize) -> io::Result<Device> {
    let n = sheet::at_most(size, line);
    let mut down = Way::fresh(0);
    let mut up = Way::fresh(Device::ROOM);
    sheet_device::moved(out, &line[..n], device, &mut down, &mut up)
}
