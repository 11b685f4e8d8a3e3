// Commands: the host writes them, the device reads them.
ghost use Rattle.std.specs.Prelude.{◌≡◌, true, false, ◌+◌, ◌≤◌, length};
ghost use Rattle.refusals.specs.Put.{written, laid};
ghost use Rattle.xor_frame.specs.Layout.{sizes};
ghost use Rattle.xor_frame.specs.Parts.{lowered};
ghost use Rattle.vcdm_frame_rules.specs.Table.{line, command_fields, command_length};
ghost use Rattle.vcdm_frame_rules.specs.Command.{counts_fit, serial_fits, command_fits, askable, write_command, read_command};
ghost use Rattle.vcdm_frame_rules.specs.Parts.{asked_read, lowered_counts, raised_byte, raised_command};

use refusals::{Put, Refusal};
use vcdm_frame_rules::{
    Command, Counts, DISPENSE, FIRST_SERIAL, LAST_SERIAL, LAST_STATUS, PURGE, RESET, STATUS,
    UNIT_ID,
};
use xor_frame::{EOT, ETX, Fault, STX, judge, lay};

// The most notes that a dispense can ask, of a cassette and of all four.
const MOST: u32 = 20;

// What TO1 and TO2 of a dispense hold.
const DESTINATION: u8 = 0x20;

// Does a command with that code ask notes?
fn asks(code: u8) -> bool
    ensures { result ≡ (line code).asks }
{
    code == DISPENSE
}

// The length of a command with that code; 0 where the code is not in the table, and no Option: so the rule `command_length` says, on which the theorems of frames stand.
#[tactic(auto, using(refusals::proofs::Rules::tests), unfolding(xor_frame::specs::Frame::length_with, vcdm_frame_rules::specs::Table::table, vcdm_frame_rules::specs::Table::code_in, vcdm_frame_rules::specs::Table::line_in, xor_frame::specs::Layout::sizes))]
pub fn command_length(code: u8) -> usize
    ensures { result ≡ command_length code }
{
    match code {
        RESET | STATUS | PURGE | LAST_STATUS => 6,
        DISPENSE => 13,
        _ => 0,
    }
}

// Are these counts that a dispense can ask? Each is tested before they are added, so that four huge ones cannot wrap into range.
#[tactic(auto, using(refusals::proofs::Rules::tests))]
fn notes_fit(n: Counts) -> bool
    ensures { result ≡ (counts_fit true n).test }
{
    n.top <= MOST
        && n.second <= MOST
        && n.third <= MOST
        && n.bottom <= MOST
        && (1..=MOST).contains(&(n.top + n.second + n.third + n.bottom))
}

// Are the counts those that a command takes which asks notes, or none?
#[tactic(auto, using(refusals::proofs::Rules::tests))]
fn counts_fit(asked: bool, n: Counts) -> bool
    ensures { result ≡ (counts_fit asked n).test }
{
    if asked {
        notes_fit(n)
    } else {
        n.top == 0 && n.second == 0 && n.third == 0 && n.bottom == 0
    }
}

fn serial_fits(asked: bool, serial: u8) -> bool
    ensures { result ≡ (serial_fits asked serial).test }
{
    if asked {
        (FIRST_SERIAL..=LAST_SERIAL).contains(&serial)
    } else {
        serial == 0
    }
}

fn command_fits(code: u8, n: Counts, serial: u8) -> bool
    ensures { result ≡ (command_fits code n serial).test }
{
    let asked = asks(code);
    counts_fit(asked, n) && serial_fits(asked, serial)
}

// Can a command with that code ask those counts at all?
#[tactic(auto, using(xor_frame::proofs::Lengths::length_none, xor_frame::proofs::Lengths::length_some), unfolding(vcdm_frame_rules::specs::Command::askable))]
pub fn is_askable(code: u8, n: Counts) -> bool
    ensures { result ≡ (askable code n).test }
{
    command_length(code) != 0 && counts_fit(asks(code), n)
}

// Writes the command at the start of the room. Where the code takes no notes each count is 0, and so is the serial. A refusal leaves the room as it was.
pub fn write_command(code: u8, n: Counts, serial: u8, room: &mut [u8]) -> Put
    ensures { written result room.new ≡ write_command code n serial room.old }
{
    let long = command_length(code);
    if long == 0 {
        return Err(Refusal::Range);
    }
    if room.len() < long {
        return Err(Refusal::Room);
    }
    if command_fits(code, n, serial) {
        Ok(lay_command(code, n, serial, room))
    } else {
        Err(Refusal::Range)
    }
}

// A count's byte: its value plus 20h.
pub(crate) fn raise(n: u32) -> u8
    ensures { result ≡ raised_byte n }
{
    0x20 + (n % 224) as u8
}

// The command's frame, laid at the start of a room that holds it.
#[tactic(auto, using(xor_frame::proofs::Check::laid_by), unfolding(xor_frame::specs::Layout::sizes, vcdm_frame_rules::specs::Parts::raised_command))]
fn lay_command(code: u8, n: Counts, serial: u8, room: &mut [u8]) -> usize
    requires { 6 + sizes (command_fields code) ≤ length room.old }
    ensures { written (Ok result) room.new ≡ laid (raised_command (line code).asks code n serial) room.old }
{
    if asks(code) {
        lay(
            &[
                EOT,
                UNIT_ID,
                STX,
                code,
                raise(n.top),
                raise(n.second),
                raise(n.third),
                raise(n.bottom),
                DESTINATION,
                DESTINATION,
                serial,
                ETX,
            ],
            room,
        )
    } else {
        lay(&[EOT, UNIT_ID, STX, code, ETX], room)
    }
}

// Reads a command frame.
pub fn read_command(s: &[u8]) -> Result<Command, Fault>
    ensures { result ≡ read_command s.now }
{
    if s.len() < 6 {
        return Err(Fault::Length);
    }
    let code = s[3];
    judge(s, EOT, UNIT_ID, command_length(code))?;
    read_asked(s, code)
}

// What a byte under 20h counts: more than any field may hold. A number and no Option, as the rule `lowered` says, so that one test of ranges refuses both.
const NO_COUNT: u32 = 300;

// The count that a byte says: its value less 20h.
#[tactic(auto, using(refusals::proofs::Rules::tests), unfolding(xor_frame::specs::Parts::lowered))]
pub(crate) fn lower(b: u8) -> u32
    ensures { result ≡ lowered b }
{
    match b.checked_sub(0x20) {
        Some(n) => n as u32,
        None => NO_COUNT,
    }
}

// The counts of a dispense.
fn counts_in(s: &[u8]) -> Counts
    requires { 13 ≤ length s.now }
    ensures { result ≡ lowered_counts s.now }
{
    Counts {
        top: lower(s[4]),
        second: lower(s[5]),
        third: lower(s[6]),
        bottom: lower(s[7]),
    }
}

// What a command frame asks in which all else is good.
fn read_asked(s: &[u8], code: u8) -> Result<Command, Fault>
    requires { 6 + sizes (command_fields code) ≤ length s.now }
    ensures { result ≡ asked_read code s.now }
{
    if asks(code) {
        return read_dispense(s, code);
    }
    Ok(Command {
        code,
        counts: Counts {
            top: 0,
            second: 0,
            third: 0,
            bottom: 0,
        },
        serial: 0,
    })
}

fn read_dispense(s: &[u8], code: u8) -> Result<Command, Fault>
    requires in_bounds { 13 ≤ length s.now }
    requires code_value { (line code).asks ≡ true }
    ensures { result ≡ asked_read code s.now }
{
    let counts = counts_in(s);
    let serial = s[10];
    if s[8] == DESTINATION
        && s[9] == DESTINATION
        && notes_fit(counts)
        && serial_fits(true, serial)
    {
        Ok(Command {
            code,
            counts,
            serial,
        })
    } else {
        Err(Fault::Field)
    }
}
