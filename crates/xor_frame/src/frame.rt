// What commands and answers of any model share: how a frame is laid and closed by its check, the tests before the fields, and counts.
ghost use Rattle.std.specs.Prelude.{◌≡◌, ◌&&◌, ◌+◌, ◌≤◌, ◌<◌, length};
ghost use Rattle.refusals.specs.Rules.{judged};
ghost use Rattle.refusals.specs.Put.{over};
ghost use Rattle.xor_frame.specs.Frame.{check, closed, fault_number};
ghost use Rattle.xor_frame.specs.Parts.{two_digits, count_at, outer_faults, code_faults};

use numbers::{digit, read_digits};

// The fixed bytes of a frame, by the makers' names: EOT opens a command and SOH an answer, STX stands before the code and ETX closes the
// fields.
pub const EOT: u8 = 0x04;

pub const SOH: u8 = 0x01;

pub const STX: u8 = 0x02;

pub const ETX: u8 = 0x03;

// Why a reader refuses a frame.
#[derive(Clone, Copy)]
pub enum Fault {
    // The frame's length is wrong.
    Length,
    // A fixed opening byte is wrong.
    Opening,
    // The code is not in the table.
    Code,
    // The closing 03h is missing.
    Closing,
    // The check is wrong.
    Check,
    // A field is outside its range.
    Field,
}

impl Fault {
    // Document 01's number.
    pub fn number(self) -> u8
        ensures { result ≡ fault_number self }
    {
        match self {
            Fault::Length => refusals::LENGTH,
            Fault::Opening => refusals::OPENING,
            Fault::Code => refusals::CODE,
            Fault::Closing => refusals::CLOSING,
            Fault::Check => refusals::CHECK,
            Fault::Field => refusals::FIELD,
        }
    }
}

// The exclusive or of all bytes.
#[tactic(auto, unfolding(crate::specs::Frame::check))]
fn check_of(s: &[u8]) -> u8
    ensures { result ≡ check s.now }
{
    let mut sum = 0;
    for &b in s {
        sum ^= b;
    }
    sum
}

// Lays the bytes and then their check at the start of the room, and says how many bytes that makes.
pub fn lay(bytes: &[u8], room: &mut [u8]) -> usize
    requires { length bytes.now < length room.old }
    ensures { (result ≡ length (closed bytes.now))
        × (room.new ≡ over (closed bytes.now) room.old) }
{
    let n = bytes.len();
    room[..n].copy_from_slice(bytes);
    room[n] = check_of(bytes);
    n + 1
}

// Tests all but the fields of a frame of six bytes or more: the opening, the code, the length, the closing, the check. id is the model's,
// and n the length of frames with that code, 0 where the code is not in the model's table.
pub fn judge(s: &[u8], first: u8, id: u8, n: usize) -> Result<(), Fault>
    requires { 6 ≤ length s.now }
    ensures { result ≡ judged (outer_faults first id n s.now) Err (Ok tt) }
{
    if s[0] == first && s[1] == id && s[2] == STX {
        judge_code(s, n)
    } else {
        Err(Fault::Opening)
    }
}

// The tests after the opening.
fn judge_code(s: &[u8], n: usize) -> Result<(), Fault>
    requires { 6 ≤ length s.now }
    ensures { result ≡ judged (code_faults n s.now) Err (Ok tt) }
{
    if n == 0 {
        return Err(Fault::Code);
    }
    let end = s.len();
    if end != n {
        return Err(Fault::Length);
    }
    if s[end - 2] != ETX {
        return Err(Fault::Closing);
    }
    let last = end - 1;
    if check_of(&s[..last]) != s[last] {
        return Err(Fault::Check);
    }
    Ok(())
}

// Do both hold? Code writes `&&`. What may not change keeps this function: docs/PROMISES.md names it.
pub fn both(a: bool, b: bool) -> bool
    ensures { result ≡ (a && b) }
{
    a && b
}

// A count's two digits.
#[derive(Clone, Copy)]
pub struct Digits {
    pub tens: u8,
    pub ones: u8,
}

// The two digits of a count.
pub fn two_digits(n: u32) -> Digits
    ensures { result ≡ two_digits n }
{
    Digits {
        tens: digit((n / 10) as u64),
        ones: digit(n as u64),
    }
}

// What two bytes count that are not both digits: more than any field may hold. A number and no Option, as the rule `count_at` says, so that one test of ranges refuses both.
const NO_COUNT: u32 = 100;

// The count whose two digits stand at a place.
pub fn count(s: &[u8], at: usize) -> u32
    requires { at + 2 ≤ length s.now }
    ensures { result ≡ count_at at s.now }
{
    read_digits(&s[at..at + 2]).unwrap_or(NO_COUNT)
}
