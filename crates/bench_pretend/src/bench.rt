// What both accounts say, whether anything is open on a side, and whether they agree.
use dispenser_rules::Session;
use exchange_rules::Sums;
use pretend_rules::{Device, Tally};
use sheet_sums::print_sums;
use std::io;
use std::io::Write;

pub(crate) fn show<W: Write>(out: &mut W, host: Session, device: Device) -> io::Result<()> {
    print_sums(out, b"host upper", host.account.cassettes.upper)?;
    print_sums(out, b"host lower", host.account.cassettes.lower)?;
    tally(out, b"device upper", device.tallies.upper)?;
    tally(out, b"device lower", device.tallies.lower)?;
    if exchange::line::is_open(host.line) {
        sheet::print_text(out, b"host open, ")?;
    } else {
        sheet::print_text(out, b"host idle, ")?;
    }
    if pretend::is_busy(device.wire) {
        sheet::print_text(out, b"device busy: ")?;
    } else {
        sheet::print_text(out, b"device idle: ")?;
    }
    let upper = same(host.account.cassettes.upper, device.tallies.upper);
    let lower = same(host.account.cassettes.lower, device.tallies.lower);
    if upper && lower {
        sheet::print_text(out, b"agree\n")
    } else {
        sheet::print_text(out, b"differ\n")
    }
}

fn tally<W: Write>(out: &mut W, name: &[u8], t: Tally) -> io::Result<()> {
    sheet::print_text(out, name)?;
    sheet::print_form(out, b" paid # rejected #\n", &[t.paid.0, t.rejected.0])
}

// Do both ends say the same of a cassette?
fn same(s: Sums, t: Tally) -> bool {
    s.paid.0 == t.paid.0 && s.rejected.0 == t.rejected.0
}
