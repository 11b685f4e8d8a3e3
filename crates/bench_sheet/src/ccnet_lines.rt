// Lines about the validator's frames and what its answers say.
//
//     validator frame, room 300: address 03h body 250
//     validator command, room 300: address 03h code 33h data 0
//     validator ACK, room 6:
//     validator NAK, room 6:
//     validator reads, poll: 02 03 06 33 DA 81
//     validator says, stacked: 81 17
//
// A body or data of so many bytes is so many times 41h.
use ccnet_class::Class;
use refusals::Put;
use std::io;
use std::io::Write;

// Writes what the line gives.
pub(crate) fn put(kind: u8, line: &[u8], lent: &mut [u8]) -> Put {
    match kind {
        b'A' => ccnet_frame::write_ack(lent),
        b'N' => ccnet_frame::write_nak(lent),
        _ => put_given(kind, line, &[0x41u8; 300], lent),
    }
}

fn put_given(kind: u8, line: &[u8], given: &[u8], lent: &mut [u8]) -> Put {
    let address = sheet::byte(line, 5);
    if kind == b'F' {
        let n = sheet::at_most(sheet::number(line, 7) as usize, given);
        return ccnet_frame::write_answer(address, &given[0..n], lent);
    }
    let n = sheet::at_most(sheet::number(line, 9) as usize, given);
    ccnet_frame::write_command(address, sheet::byte(line, 7), &given[0..n], lent)
}

// What a body says, or what reading a frame finds: the address and the body.
pub(crate) fn found<W: Write>(out: &mut W, kind: u8, s: &[u8]) -> io::Result<()> {
    if kind == b'S' {
        return print_class(out, ccnet_class::classify(s));
    }
    match ccnet_frame::judge(s) {
        Ok(address) => sheet::print_form(out, b" address $", &[address as u32])?,
        Err(why) => sheet::print_form(out, b" refused #", &[why.number() as u32])?,
    }
    print_body(out, ccnet_frame::body(s))
}

fn print_body<W: Write>(out: &mut W, body: &[u8]) -> io::Result<()> {
    sheet::print_text(out, b", body of ")?;
    sheet::print_number(out, body.len())?;
    sheet::print_text(out, b":")?;
    sheet::print_bytes(out, body)?;
    sheet::print_text(out, b"\n")
}

fn print_class<W: Write>(out: &mut W, class: Class) -> io::Result<()> {
    match class {
        Class::Ack => sheet::print_text(out, b" ACK\n"),
        Class::Nak => sheet::print_text(out, b" NAK\n"),
        Class::Illegal => sheet::print_text(out, b" illegal command\n"),
        Class::State(b) => sheet::print_form(out, b" state $\n", &[b as u32]),
        Class::Busy(b) => sheet::print_form(out, b" busy $\n", &[b as u32]),
        Class::Rejecting(b) => sheet::print_form(out, b" rejecting $\n", &[b as u32]),
        Class::Failing(b) => sheet::print_form(out, b" failing $\n", &[b as u32]),
        Class::Escrow(y) => sheet::print_form(out, b" escrow of type #\n", &[y as u32]),
        Class::Stacked(y) => sheet::print_form(out, b" stacked type #\n", &[y as u32]),
        Class::Returned(y) => sheet::print_form(out, b" returned type #\n", &[y as u32]),
        Class::Unknown => sheet::print_text(out, b" unknown\n"),
        Class::Table => sheet::print_text(out, b" table\n"),
    }
}
