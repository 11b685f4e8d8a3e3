// The bench sheet, the lines about both ends of the dispenser's line: a host session and the pretend dispenser run against each other. For each line of standard input that begins
// with run, a list of moves, it writes what came of each call, and then both accounts; any other line it writes as it stands. The file `stdout` has what the run must write;
// the second implementation holds it to documents 01 and 02 (cross/tests/bench_pretend.rs).
#![tactic(auto)]

mod bench;
mod host;

use dispenser_rules::Session;
use pretend_rules::Device;
use sheet_device::{Way, moves};
use std::io;
use std::io::Write;

// One byte more than a sheet may have, so that one that is too long shows.
const ROOM: usize = 262_145;

fn main(rt: HostRuntime) -> io::Result<()> {
    let mut store = [0u8; ROOM];
    let over = b"standard input: over 262,144 bytes\n";
    let Some(n) = files::read_sheet(&mut rt.stdin(), &mut rt.stderr(), over, &mut store)? else {
        return Ok(());
    };
    let mut out = rt.stdout();
    sheet::each_line(&store[..n], |line| one(&mut out, line))
}

// A line that begins with run is one: every word behind the first, in turn; then what both accounts say.
fn one<W: Write>(out: &mut W, line: &[u8]) -> io::Result<()> {
    if !moves::is_run(line) {
        return sheet::print_text(out, line);
    }
    let mut up = Way::fresh(Device::ROOM);
    let mut down = Way::fresh(Session::ROOM);
    let mut session = Session::fresh();
    let mut device = Device::fresh();
    for word in line.split_inclusive(|b| *b == b' ').skip(1) {
        session = host::moved(out, word, session, &mut up, &mut down)?;
        device = sheet_device::moved(out, word, device, &mut down, &mut up)?;
    }
    bench::show(out, session, device)
}
