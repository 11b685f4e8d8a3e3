// Lines about commands.
//
//     write command, room 24: 45h upper 10 lower 0
//     read command, five bytes: 04 50 02 44 03
use refusals::Put;
use std::io;
use std::io::Write;

// Writes the command that a line gives.
pub(crate) fn put(line: &[u8], room: &mut [u8]) -> Put {
    let code = sheet::byte(line, 4);
    let upper = sheet::number(line, 6);
    let lower = sheet::number(line, 8);
    dispenser_frame::write_command(code, upper, lower, room)
}

// What reading a command finds: its code and counts.
pub(crate) fn found<W: Write>(out: &mut W, s: &[u8]) -> io::Result<()> {
    match dispenser_frame::read_command(s) {
        Ok(command) => sheet::print_form(
            out,
            b" reads as $ upper # lower #\n",
            &[command.code as u32, command.upper, command.lower],
        ),
        Err(why) => sheet::print_fault(out, why.number()),
    }
}
