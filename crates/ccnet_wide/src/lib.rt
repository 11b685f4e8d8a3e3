// CCNET frames past 255 bytes, in the wide form of 003: written, read, and their data handed back as a part of the caller's own bytes.
// Document 02, Q-11.
#![tactic(auto)]

ghost use Rattle.std.specs.Prelude.{◌≡◌, ◌≤◌, length};
ghost use Rattle.refusals.specs.Rules.{within};
ghost use Rattle.refusals.specs.Put.{written, over};
ghost use Rattle.ccnet_frame.specs.Frame.{framed};
ghost use Rattle.ccnet_frame.specs.Part.{Part};
ghost use Rattle.ccnet_wide.specs.Wide.{lead_bytes, wide_rest, wide_length, write_wide, lead_at, length_place, is_sized, judge_wide, data_start, data_size};

use ccnet_frame::{Fault, START, byte_at, judge_sized, lay, plan, word};
use refusals::Put;

// The least and the most bytes of a wide frame: below, a frame has the narrow form, and two bytes say no more.
const LEAST: usize = 256;

const MOST: usize = 65_535;

// Where a wide frame has its true length, which its bytes do not tell: the caller says it.
#[derive(Clone, Copy)]
pub enum Form {
    AfterCode,
    AfterSubcommand,
    // There is no code.
    AtOnce,
}

// What a wide frame has before its true length.
#[derive(Clone, Copy)]
pub enum Lead {
    Code(u8),
    Subcommand { code: u8, subcommand: u8 },
    Nothing,
}

// What a good wide frame begins with.
#[derive(Clone, Copy)]
pub struct Head {
    pub address: u8,
    pub lead: Lead,
}

// How many bytes stand before the true length, behind the length byte.
fn lead_size(lead: Lead) -> usize
    ensures { result ≡ length (lead_bytes lead) }
{
    match lead {
        Lead::Code(_) => 1,
        Lead::Subcommand { .. } => 2,
        Lead::Nothing => 0,
    }
}

// May a wide frame have that length?
#[tactic(auto, using(refusals::proofs::Rules::tests))]
fn is_wide(n: usize) -> bool
    ensures { result ≡ (within 256 65535 n).test }
{
    (LEAST..=MOST).contains(&n)
}

// Lays a frame whose true length is n at the start of the room.
fn lay_wide(address: u8, lead: Lead, n: u16, given: &[u8], room: &mut [u8])
    requires { wide_length lead (length given.now) ≤ length room.old }
    ensures { room.new ≡ over (framed address 0 (wide_rest lead n given.now)) room.old }
{
    let high = (n / 256) as u8;
    let low = (n % 256) as u8;
    match lead {
        Lead::Code(code) => lay(&[START, address, 0, code, high, low], given, room),
        Lead::Subcommand { code, subcommand } => lay(
            &[START, address, 0, code, subcommand, high, low],
            given,
            room,
        ),
        Lead::Nothing => lay(&[START, address, 0, high, low], given, room),
    }
}

// Writes a frame of 256 to 65,535 bytes at the start of the room: 02h, address, length byte, true length and check are seven of them. A
// refusal leaves the room as it was.
pub fn write(address: u8, lead: Lead, given: &[u8], room: &mut [u8]) -> Put
    ensures { written result room.new ≡ write_wide address lead given.now room.old }
{
    let length = 7 + lead_size(lead) + given.len();
    let n = plan(is_wide(length), length, address, room.len())?;
    lay_wide(address, lead, n as u16, given, room);
    Ok(n)
}

// Where the true length stands.
fn length_place(form: Form) -> usize
    ensures { result ≡ length_place form }
{
    match form {
        Form::AfterCode => 4,
        Form::AfterSubcommand => 5,
        Form::AtOnce => 3,
    }
}

// What stands before the true length.
fn lead_at(form: Form, s: &[u8]) -> Lead
    ensures { result ≡ lead_at form s.now }
{
    match form {
        Form::AfterCode => Lead::Code(byte_at(s, 3)),
        Form::AfterSubcommand => Lead::Subcommand {
            code: byte_at(s, 3),
            subcommand: byte_at(s, 4),
        },
        Form::AtOnce => Lead::Nothing,
    }
}

// Is the length right: the length byte 0, and a true length of 256 or more that is that of the bytes given?
#[tactic(auto, using(refusals::proofs::Rules::tests))]
fn is_sized(form: Form, s: &[u8]) -> bool
    ensures { result ≡ (is_sized form s.now).test }
{
    let at = length_place(form);
    if byte_at(s, 2) != 0 || s.len() < at + 2 {
        return false;
    }
    let said = word(s[at + 1], s[at]) as usize;
    said >= LEAST && said == s.len()
}

// Judges a frame of the form that the caller says, and says what it begins with.
pub fn judge(form: Form, s: &[u8]) -> Result<Head, Fault>
    ensures { result ≡ judge_wide form s.now }
{
    let address = judge_sized(s, is_sized(form, s))?;
    Ok(Head {
        address,
        lead: lead_at(form, s),
    })
}

// The data of a good frame, as a part of the caller's own bytes; an empty part where the frame is refused.
pub fn data_of<'a>(form: Form, s: &'a [u8]) -> &'a [u8]
    ensures { Part s.entry (data_start (judge_wide form s.now)) (data_size (judge_wide form s.now) (length s.now)) result }
{
    match judge(form, s) {
        Ok(head) => {
            let start = 5 + lead_size(head.lead);
            &s[start..s.len() - 2]
        }
        Err(_) => &s[..0],
    }
}
