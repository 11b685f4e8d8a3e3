// Answers: the device writes them, the host reads them.
ghost use Rattle.std.specs.Prelude.{◌≡◌, ◌+◌, ◌≤◌, length};
ghost use Rattle.refusals.specs.Put.{written, laid};
ghost use Rattle.xor_frame.specs.Layout.{in_range, sizes};
ghost use Rattle.vcdm_frame_rules.specs.Table.{line, kind, answer_fields, answer_length, known};
ghost use Rattle.vcdm_frame_rules.specs.Answer.{answer_code, answer_fits, write_answer, read_answer};
ghost use Rattle.vcdm_frame_rules.specs.Parts.{fields_read, paid_from, cassettes_from, spare_from, place_from, places_from, paid_fits, cassettes_fit, names_fit, place_fits, places_fit, answer_from, status_frame, counted_frame, last_frame, raised_answer};

use crate::command::{lower, raise};
use refusals::{Put, Refusal};
use vcdm_frame_rules::{
    Answer, Cassettes, DISPENSE, FIRST_SERIAL, LAST_SERIAL, LAST_STATUS, PURGE, Paid, Place,
    Places, RESET, STATUS, Spare, UNIT_ID,
};
use xor_frame::{ETX, Fault, SOH, STX, judge, lay};

// The most notes that EXIT or REJECT counts: FFh less 20h.
const COUNTED: u32 = 223;

// The length of the answer to a command with that code; 0 where the code is not in the table, and no Option: so the rule `answer_length` says, on which the theorems of frames stand.
#[tactic(auto, using(refusals::proofs::Rules::tests), unfolding(xor_frame::specs::Frame::length_with, vcdm_frame_rules::specs::Table::table, vcdm_frame_rules::specs::Table::code_in, vcdm_frame_rules::specs::Table::line_in, xor_frame::specs::Layout::sizes))]
pub fn answer_length(code: u8) -> usize
    ensures { result ≡ answer_length code }
{
    match code {
        RESET => 7,
        STATUS => 25,
        PURGE | DISPENSE => 29,
        LAST_STATUS => 30,
        _ => 0,
    }
}

// The code of the command that the answer answers.
pub fn code_of(answer: Answer) -> u8
    ensures { result ≡ answer_code answer }
{
    match answer {
        Answer::Reset { .. } => RESET,
        Answer::Status { .. } => STATUS,
        Answer::Purged { .. } => PURGE,
        Answer::Dispensed { .. } => DISPENSE,
        Answer::Last { .. } => LAST_STATUS,
    }
}

// Are the counts of a cassette in their range? Like the tests that follow, this is asked by the writer and by the reader.
#[tactic(auto, using(refusals::proofs::Rules::tests), unfolding(vcdm_frame_rules::specs::Parts::paid_fits))]
fn paid_fits(p: Paid) -> bool
    ensures { result ≡ (paid_fits p).test }
{
    p.exit <= COUNTED && p.rejects <= COUNTED
}

#[tactic(auto, using(refusals::proofs::Rules::tests), unfolding(vcdm_frame_rules::specs::Parts::cassettes_fit))]
fn cassettes_fit(c: Cassettes) -> bool
    ensures { result ≡ (cassettes_fit c).test }
{
    paid_fits(c.top) && paid_fits(c.second) && paid_fits(c.third) && paid_fits(c.bottom)
}

// Does the byte name a cassette?
fn is_name(b: u8) -> bool
    ensures { result ≡ (in_range kind b).test }
{
    (0x31..=0x34).contains(&b)
}

#[tactic(auto, using(refusals::proofs::Rules::tests), unfolding(vcdm_frame_rules::specs::Parts::names_fit))]
fn names_fit(c: Cassettes) -> bool
    ensures { result ≡ (names_fit c).test }
{
    is_name(c.top.kind) && is_name(c.second.kind) && is_name(c.third.kind) && is_name(c.bottom.kind)
}

#[tactic(auto, using(refusals::proofs::Rules::tests), unfolding(vcdm_frame_rules::specs::Parts::place_fits))]
fn place_fits(p: Place) -> bool
    ensures { result ≡ (place_fits p).test }
{
    is_name(p.kind) && p.opacity >= 0x20 && p.length >= 0x20
}

#[tactic(auto, using(refusals::proofs::Rules::tests), unfolding(vcdm_frame_rules::specs::Parts::places_fit))]
fn places_fit(p: Places) -> bool
    ensures { result ≡ (places_fit p).test }
{
    place_fits(p.top) && place_fits(p.second) && place_fits(p.third) && place_fits(p.bottom)
}

// Is each field in its range? Error and reserved bytes may be any.
#[tactic(auto, using(refusals::proofs::Rules::tests))]
fn fits(answer: Answer) -> bool
    ensures { result ≡ (answer_fits answer).test }
{
    match answer {
        Answer::Reset { .. } => true,
        Answer::Status { places, .. } => places_fit(places),
        Answer::Purged { cassettes, .. } => cassettes_fit(cassettes) && names_fit(cassettes),
        Answer::Dispensed {
            serial,
            cassettes,
            ..
        } => (FIRST_SERIAL..=LAST_SERIAL).contains(&serial) && cassettes_fit(cassettes),
        // 20h: no dispense, but the sensor diagnostics (000).
        Answer::Last {
            serial,
            cassettes,
            ..
        } => (0x20..=LAST_SERIAL).contains(&serial) && cassettes_fit(cassettes),
    }
}

// Writes the answer at the start of the room. A refusal leaves the room as it was.
pub fn write_answer(answer: Answer, room: &mut [u8]) -> Put
    ensures { written result room.new ≡ write_answer answer room.old }
{
    let n = answer_length(code_of(answer));
    if room.len() < n {
        return Err(Refusal::Room);
    }
    if fits(answer) {
        Ok(lay_answer(answer, room))
    } else {
        Err(Refusal::Range)
    }
}

// The answer's frame, laid at the start of a room that holds it.
fn lay_answer(answer: Answer, room: &mut [u8]) -> usize
    requires { 6 + sizes (answer_fields (answer_code answer)) ≤ length room.old }
    ensures { written (Ok result) room.new ≡ laid (raised_answer answer) room.old }
{
    match answer {
        Answer::Reset { error } => lay(&[SOH, UNIT_ID, STX, RESET, error, ETX], room),
        Answer::Status {
            error,
            disp0,
            disp1,
            places,
        } => lay_status(error, disp0, disp1, places, room),
        Answer::Purged {
            error,
            miss,
            cassettes,
            spare,
        } => lay_counted(PURGE, error, miss, cassettes, spare, room),
        Answer::Dispensed {
            error,
            serial,
            cassettes,
            spare,
        } => lay_counted(DISPENSE, error, serial, cassettes, spare, room),
        Answer::Last {
            last,
            error,
            serial,
            cassettes,
            spare,
        } => lay_last(last, error, serial, cassettes, spare, room),
    }
}

// 50h: error, DISP0, DISP1, and each position.
#[tactic(auto, using(xor_frame::proofs::Check::laid_by), unfolding(vcdm_frame_rules::specs::Parts::status_frame))]
fn lay_status(error: u8, disp0: u8, disp1: u8, places: Places, room: &mut [u8]) -> usize
    requires { 25 ≤ length room.old }
    ensures { written (Ok result) room.new ≡ laid (status_frame error disp0 disp1 places) room.old }
{
    let Places {
        top,
        second,
        third,
        bottom,
    } = places;
    lay(
        &[
            SOH,
            UNIT_ID,
            STX,
            STATUS,
            error,
            disp0,
            disp1,
            top.stat,
            top.kind,
            top.opacity,
            top.length,
            second.stat,
            second.kind,
            second.opacity,
            second.length,
            third.stat,
            third.kind,
            third.opacity,
            third.length,
            bottom.stat,
            bottom.kind,
            bottom.opacity,
            bottom.length,
            ETX,
        ],
        room,
    )
}

// 51h and 52h: error, a byte, each cassette, nine bytes.
#[tactic(auto, using(xor_frame::proofs::Check::laid_by), unfolding(vcdm_frame_rules::specs::Parts::counted_frame))]
fn lay_counted(
    code: u8,
    error: u8,
    next: u8,
    cassettes: Cassettes,
    spare: Spare,
    room: &mut [u8],
) -> usize
    requires { 29 ≤ length room.old }
    ensures { written (Ok result) room.new ≡ laid (counted_frame code error next cassettes spare) room.old }
{
    let Cassettes {
        top,
        second,
        third,
        bottom,
    } = cassettes;
    lay(
        &[
            SOH,
            UNIT_ID,
            STX,
            code,
            error,
            next,
            raise(top.exit),
            raise(top.rejects),
            top.kind,
            raise(second.exit),
            raise(second.rejects),
            second.kind,
            raise(third.exit),
            raise(third.rejects),
            third.kind,
            raise(bottom.exit),
            raise(bottom.rejects),
            bottom.kind,
            spare.a,
            spare.b,
            spare.c,
            spare.d,
            spare.e,
            spare.f,
            spare.g,
            spare.h,
            spare.i,
            ETX,
        ],
        room,
    )
}

// 55h: the last command's code, and then as 52h. Two functions, since an array one byte longer is another type, and there is no heap to lay it in.
#[tactic(auto, using(xor_frame::proofs::Check::laid_by), unfolding(vcdm_frame_rules::specs::Parts::last_frame))]
fn lay_last(
    last: u8,
    error: u8,
    serial: u8,
    cassettes: Cassettes,
    spare: Spare,
    room: &mut [u8],
) -> usize
    requires { 30 ≤ length room.old }
    ensures { written (Ok result) room.new ≡ laid (last_frame last error serial cassettes spare) room.old }
{
    let Cassettes {
        top,
        second,
        third,
        bottom,
    } = cassettes;
    lay(
        &[
            SOH,
            UNIT_ID,
            STX,
            LAST_STATUS,
            last,
            error,
            serial,
            raise(top.exit),
            raise(top.rejects),
            top.kind,
            raise(second.exit),
            raise(second.rejects),
            second.kind,
            raise(third.exit),
            raise(third.rejects),
            third.kind,
            raise(bottom.exit),
            raise(bottom.rejects),
            bottom.kind,
            spare.a,
            spare.b,
            spare.c,
            spare.d,
            spare.e,
            spare.f,
            spare.g,
            spare.h,
            spare.i,
            ETX,
        ],
        room,
    )
}

// Reads an answer frame.
pub fn read_answer(s: &[u8]) -> Result<Answer, Fault>
    ensures { result ≡ read_answer s.now }
{
    if s.len() < 6 {
        return Err(Fault::Length);
    }
    let code = s[3];
    judge(s, SOH, UNIT_ID, answer_length(code))?;
    read_fields(s, code)
}

// The fields of an answer frame in which all else is good.
fn read_fields(s: &[u8], code: u8) -> Result<Answer, Fault>
    requires code_in_bounds { 6 + sizes (answer_fields code) ≤ length s.now }
    requires fact { (known code).holds }
    ensures { result ≡ fields_read (answer_fields code) (line code).makes s.now }
{
    let answer = answer_in(s, code);
    if fits(answer) {
        Ok(answer)
    } else {
        Err(Fault::Field)
    }
}

// The answer that a frame with a code of the table holds. Its fields may still be outside their ranges.
#[tactic(auto, using(vcdm_frame_rules::proofs::Codes::last_code), unfolding(xor_frame::specs::Layout::sizes, vcdm_frame_rules::specs::Table::table, vcdm_frame_rules::specs::Table::line_in, vcdm_frame_rules::specs::Parts::answer_from))]
fn answer_in(s: &[u8], code: u8) -> Answer
    requires code_in_bounds { 6 + sizes (answer_fields code) ≤ length s.now }
    requires fact { (known code).holds }
    ensures { result ≡ answer_from code s.now }
{
    match code {
        RESET => Answer::Reset { error: s[4] },
        STATUS => Answer::Status {
            error: s[4],
            disp0: s[5],
            disp1: s[6],
            places: places_in(s, 7),
        },
        PURGE => Answer::Purged {
            error: s[4],
            miss: s[5],
            cassettes: cassettes_in(s, 6),
            spare: spare_in(s, 18),
        },
        DISPENSE => Answer::Dispensed {
            error: s[4],
            serial: s[5],
            cassettes: cassettes_in(s, 6),
            spare: spare_in(s, 18),
        },
        _ => Answer::Last {
            last: s[4],
            error: s[5],
            serial: s[6],
            cassettes: cassettes_in(s, 7),
            spare: spare_in(s, 19),
        },
    }
}

// What is said of the cassette whose EXIT stands at a place.
#[tactic(auto, unfolding(vcdm_frame_rules::specs::Parts::paid_from))]
fn paid_in(s: &[u8], at: usize) -> Paid
    requires { at + 3 ≤ length s.now }
    ensures { result ≡ paid_from at s.now }
{
    Paid {
        exit: lower(s[at]),
        rejects: lower(s[at + 1]),
        kind: s[at + 2],
    }
}

#[tactic(auto, unfolding(vcdm_frame_rules::specs::Parts::cassettes_from))]
fn cassettes_in(s: &[u8], at: usize) -> Cassettes
    requires { at + 12 ≤ length s.now }
    ensures { result ≡ cassettes_from at s.now }
{
    Cassettes {
        top: paid_in(s, at),
        second: paid_in(s, at + 3),
        third: paid_in(s, at + 6),
        bottom: paid_in(s, at + 9),
    }
}

// The nine reserved bytes from a place on.
#[tactic(auto, unfolding(vcdm_frame_rules::specs::Parts::spare_from))]
fn spare_in(s: &[u8], at: usize) -> Spare
    requires { at + 9 ≤ length s.now }
    ensures { result ≡ spare_from at s.now }
{
    Spare {
        a: s[at],
        b: s[at + 1],
        c: s[at + 2],
        d: s[at + 3],
        e: s[at + 4],
        f: s[at + 5],
        g: s[at + 6],
        h: s[at + 7],
        i: s[at + 8],
    }
}

// What is said of the position whose STAT stands at a place.
#[tactic(auto, unfolding(vcdm_frame_rules::specs::Parts::place_from))]
fn place_in(s: &[u8], at: usize) -> Place
    requires { at + 4 ≤ length s.now }
    ensures { result ≡ place_from at s.now }
{
    Place {
        stat: s[at],
        kind: s[at + 1],
        opacity: s[at + 2],
        length: s[at + 3],
    }
}

#[tactic(auto, unfolding(vcdm_frame_rules::specs::Parts::places_from))]
fn places_in(s: &[u8], at: usize) -> Places
    requires { at + 16 ≤ length s.now }
    ensures { result ≡ places_from at s.now }
{
    Places {
        top: place_in(s, at),
        second: place_in(s, at + 4),
        third: place_in(s, at + 8),
        bottom: place_in(s, at + 12),
    }
}
