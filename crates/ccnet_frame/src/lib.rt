// CCNET frames: commands and answers written and read, and the body handed back as a part of the caller's own bytes. Document 01, "CCNET frames". What every frame
// has, whichever form its length takes, is public for `ccnet_wide`: START, byte_at, judge_sized, lay, plan and word.
#![tactic(auto)]

ghost use Rattle.std.specs.Prelude.{◌≡◌, [], ◌∷◌, ◌++◌, ◌+◌, ◌*◌, ◌≤◌, length, get_or};
ghost use Rattle.refusals.specs.Put.{written, writing, over};
ghost use Rattle.refusals.specs.Rules.{says, within};
ghost use Rattle.ccnet_check.specs.Check.{check_from};
ghost use Rattle.ccnet_frame.specs.Frame.{fault_number, closed, frame, is_address, write_frame, judge_sized, judge_frame, body_start, body_size};
ghost use Rattle.ccnet_frame.specs.Part.{Part};
ghost use Rattle.ccnet_frame.specs.Parts.{planned};

use ccnet_check::{check_of, with_byte};
use refusals::{Put, Refusal};

// The byte that every frame begins with.
pub const START: u8 = 0x02;

// The validator's address, which ACK and NAK carry.
const VALIDATOR: u8 = 0x03;

// The most bytes of a body. Beside a command's code that leaves 249 data bytes.
const MOST_BODY: usize = 250;

// Why a reader refuses a frame.
#[derive(Clone, Copy)]
pub enum Fault {
    // The frame's length is wrong.
    Length,
    // The 02h or the address is wrong.
    Opening,
    // The check is wrong.
    Check,
}

impl Fault {
    // Document 01's number.
    pub fn number(self) -> u8
        ensures { result ≡ fault_number self }
    {
        match self {
            Fault::Length => refusals::LENGTH,
            Fault::Opening => refusals::OPENING,
            Fault::Check => refusals::CHECK,
        }
    }
}

// Is it an address: 01h to 0Fh?
fn is_address(b: u8) -> bool
    ensures { result ≡ (is_address b).test }
{
    (0x01..=0x0F).contains(&b)
}

// Lays the bytes at the start of the room, and says the check after them; c is the check before them.
fn put(bytes: &[u8], c: u16, room: &mut [u8]) -> u16
    requires { length bytes.now ≤ length room.old }
    ensures { (result ≡ check_from c bytes.now)
        × (room.new ≡ over bytes.now room.old) }
{
    let mut sum = c;
    for (i, &b) in bytes.iter().enumerate() {
        room[i] = b;
        sum = with_byte(sum, b);
    }
    sum
}

// Lays a frame at the start of the room: its head, its body, and their two check bytes, low byte first.
pub fn lay(head: &[u8], body: &[u8], room: &mut [u8])
    requires { length head.now + length body.now + 2 ≤ length room.old }
    ensures { room.new ≡ over (closed (head.now ++ body.now)) room.old }
{
    let start = head.len();
    let end = start + body.len();
    let opened = put(head, 0, room);
    let sum = put(body, opened, &mut room[start..]);
    room[end] = (sum % 256) as u8;
    room[end + 1] = (sum / 256) as u8;
}

// How long a frame of n bytes with that address is, or why it is not to be written into a room of that size; sized says whether a
// frame may have n bytes.
#[tactic(auto, using(refusals::proofs::Rules::tests), unfolding(crate::specs::Parts::planned))]
pub fn plan(sized: bool, n: usize, address: u8, room: usize) -> Put
    ensures { result ≡ planned sized n address room }
{
    if !sized {
        return Err(Refusal::Range);
    }
    if room < n {
        return Err(Refusal::Room);
    }
    if !is_address(address) {
        return Err(Refusal::Range);
    }
    Ok(n)
}

// May a body have that size: 1 to 250?
fn is_body(size: usize) -> bool
    ensures { result ≡ (within 1 250 size).test }
{
    (1..=MOST_BODY).contains(&size)
}

// Writes an answer's frame at the start of the room: a body of 1 to 250 bytes. A refusal leaves the room as it was.
pub fn write_answer(address: u8, body: &[u8], room: &mut [u8]) -> Put
    ensures { written result room.new ≡ write_frame address body.now room.old }
{
    let size = body.len();
    let n = plan(is_body(size), 5 + size, address, room.len())?;
    lay(&[START, address, n as u8], body, room);
    Ok(n)
}

// Writes a command's frame at the start of the room: its code and 0 to 249 data bytes. Any code is taken. A refusal leaves the room as
// it was.
pub fn write_command(address: u8, code: u8, given: &[u8], room: &mut [u8]) -> Put
    ensures { written result room.new ≡ write_frame address (code ∷ given.now) room.old }
{
    let size = 1 + given.len();
    let n = plan(is_body(size), 5 + size, address, room.len())?;
    lay(&[START, address, n as u8, code], given, room);
    Ok(n)
}

// Writes ACK at the start of the room.
pub fn write_ack(room: &mut [u8]) -> Put
    ensures { written result room.new ≡ writing (frame 0x03 (0x00 ∷ [])) room.old }
{
    write_answer(VALIDATOR, &[0x00], room)
}

// Writes NAK at the start of the room. It stays beside `write_ack`: docs/PROMISES.md names both.
pub fn write_nak(room: &mut [u8]) -> Put
    ensures { written result room.new ≡ writing (frame 0x03 (0xFF ∷ [])) room.old }
{
    write_answer(VALIDATOR, &[0xFF], room)
}

// The number that two bytes say.
pub fn word(low: u8, high: u8) -> u16
    ensures { result ≡ low + 256 * high }
{
    low as u16 + 256 * high as u16
}

// The byte at a place; 0 where there is none.
pub fn byte_at(s: &[u8], at: usize) -> u8
    ensures { result ≡ get_or s.now at 0 }
{
    s.get(at).copied().unwrap_or(0)
}

// Judges a frame of which sized says whether its length is right, and says its address.
#[tactic(auto, using(refusals::proofs::Rules::tests), unfolding(crate::specs::Frame::judge_sized))]
pub fn judge_sized(s: &[u8], sized: bool) -> Result<u8, Fault>
    ensures { result ≡ judge_sized (says sized) s.now }
{
    let n = s.len();
    if n < 6 {
        return Err(Fault::Length);
    }
    if s[0] != START || !is_address(s[1]) {
        return Err(Fault::Opening);
    }
    if !sized {
        return Err(Fault::Length);
    }
    let end = n - 2;
    if check_of(&s[..end]) != word(s[end], s[end + 1]) {
        return Err(Fault::Check);
    }
    Ok(s[1])
}

// Judges a frame, and says its address.
pub fn judge(s: &[u8]) -> Result<u8, Fault>
    ensures { result ≡ judge_frame s.now }
{
    judge_sized(s, byte_at(s, 2) as usize == s.len())
}

// The body of a good frame, as a part of the caller's own bytes; an empty part where the frame is refused.
pub fn body<'a>(s: &'a [u8]) -> &'a [u8]
    ensures { Part s.entry (body_start (judge_frame s.now)) (body_size (judge_frame s.now) (length s.now)) result }
{
    match judge(s) {
        Ok(_) => &s[3..s.len() - 2],
        Err(_) => &s[..0],
    }
}
