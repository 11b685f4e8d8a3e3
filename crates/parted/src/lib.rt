// Where two recordings part: a student's, laid beside the reference. Document 02, Q-8. Two calls follow one definition: `parting` says where they part and whose
// remainder goes on from there, or which of them is malformed; `remainder` hands that remainder back, as a part of the caller's own bytes.
#![tactic(auto)]

ghost use Rattle.std.specs.Prelude.{◌≡◌};
ghost use Rattle.parted.specs.Parting.{equal, due_at, beside_record, beside_end, turn_at, parting_of};
ghost use Rattle.parted.specs.Remainder.{Remains};

use recording::{Fault, record_at};

// Which of the two.
#[derive(Clone, Copy)]
pub enum Whose {
    Student,
    Reference,
}

// Which of the two has no record there, and why.
#[derive(Clone, Copy)]
pub struct Malformed {
    pub whose: Whose,
    pub why: Fault,
}

// Where two recordings part.
#[derive(Clone, Copy)]
pub struct Parted {
    // Where the longest run of equal whole records ends, in both.
    pub at: usize,
    // How many records it has.
    pub records: usize,
    // Whose remainder is handed back.
    pub next: Result<Whose, Malformed>,
}

// What two recordings show where a record is due in both. No Result: neither going on nor ending is a failure.
#[derive(Clone, Copy)]
pub(crate) enum Turn {
    // The same record, of so many bytes.
    On(usize),
    Ends(Result<Whose, Malformed>),
}

// Are the bytes the same?
fn is_equal(a: &[u8], b: &[u8]) -> bool
    ensures { result ≡ (equal a.now b.now).test }
{
    a == b
}

// How many bytes the record has that is due in a recording; None at its end.
fn due_at(recording: &[u8], at: usize) -> Result<Option<usize>, Fault>
    ensures { result ≡ due_at recording.now at }
{
    if recording.len() <= at {
        return Ok(None);
    }
    let (_, n) = record_at(recording, at)?;
    Ok(Some(n))
}

// The student has a record of n bytes there.
fn beside_record(student: &[u8], reference: &[u8], at: usize, n: usize) -> Turn
    requires { due_at student.now at ≡ Ok (Some n) }
    ensures { result ≡ beside_record student.now reference.now at n (due_at reference.now at) }
{
    match due_at(reference, at) {
        Ok(None) => Turn::Ends(Ok(Whose::Student)),
        Ok(Some(m)) => {
            if is_equal(&student[at..at + n], &reference[at..at + m]) {
                return Turn::On(n);
            }
            Turn::Ends(Ok(Whose::Student))
        }
        Err(why) => Turn::Ends(Err(Malformed {
            whose: Whose::Reference,
            why,
        })),
    }
}

// The student's recording has ended there.
fn beside_end(reference: &[u8], at: usize) -> Turn
    ensures { result ≡ beside_end (due_at reference.now at) }
{
    match due_at(reference, at) {
        Ok(None) => Turn::Ends(Ok(Whose::Reference)),
        Ok(Some(_)) => Turn::Ends(Ok(Whose::Reference)),
        Err(why) => Turn::Ends(Err(Malformed {
            whose: Whose::Reference,
            why,
        })),
    }
}

fn turn_at(student: &[u8], reference: &[u8], at: usize) -> Turn
    ensures { result ≡ turn_at student.now reference.now at }
{
    match due_at(student, at) {
        Ok(None) => beside_end(reference, at),
        Ok(Some(n)) => beside_record(student, reference, at, n),
        Err(why) => Turn::Ends(Err(Malformed {
            whose: Whose::Student,
            why,
        })),
    }
}

// Where the two part, and whose remainder goes on from there; or which of them is malformed in its next record, the student's if both are.
pub fn parting(student: &[u8], reference: &[u8]) -> Parted
    ensures { result ≡ parting_of student.now reference.now }
{
    let mut at: usize = 0;
    let mut records: usize = 0;
    // No `for`: each turn goes on by as many bytes as its record has.
    loop {
        match turn_at(student, reference, at) {
            Turn::On(n) => {
                at += n;
                records += 1;
            }
            Turn::Ends(next) => {
                return Parted { at, records, next };
            }
        }
    }
}

// The remainder, from where the two part to its end: the student's if it has one, otherwise the reference's, which may be empty. Where one is malformed, the
// student's first no bytes.
pub fn remainder<'a>(student: &'a [u8], reference: &'a [u8]) -> &'a [u8]
    ensures { Remains student.entry reference.entry result }
{
    let parted = parting(student, reference);
    let at = parted.at;
    match parted.next {
        Ok(Whose::Student) => &student[at..],
        Ok(Whose::Reference) => &reference[at..],
        Err(_) => &student[0..0],
    }
}
