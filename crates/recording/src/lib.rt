// Recordings, read a byte at a time. Document 01, "Recording and report". The step over one byte is all that there is to reading, so that a
// recording may come in pieces of any size. Where the bytes of a record stand together, `record_at` takes it at once, as those steps would; `record_in` does so in a piece, which may begin inside a record.
#![tactic(auto)]

mod taking;

ghost use Rattle.std.specs.Prelude.{◌≡◌};
ghost use Rattle.dispenser_frame_rules.specs.Table.{known};
ghost use Rattle.recording.specs.Record.{fault_number, in_list};
ghost use Rattle.recording.specs.Reading.{fresh_reader, awaiting, grown, next_number, more, whole, refused_at, kind_byte, numbered, request_read, byte_read, command_read, grouped, read_byte, past_in, taken_byte, ended, verdict};

use dispenser_frame::answer_length;
use numbers::{Group, NUMBER_END, next_group};
pub use taking::{glances_in, reader_at, record_at, record_in, rest_at};

// Why a recording is bad.
#[derive(Clone, Copy)]
pub enum Fault {
    // A number is not in its shortest form, has more than five groups, or is not below 4,294,967,296.
    BadNumber,
    // The end comes inside a record.
    Cut,
    // Unknown kind, or a code or byte outside its kind's list.
    Unknown,
    // Over 4,294,967,295 bytes.
    Long,
}

impl Fault {
    // Document 01's number.
    pub fn number(self) -> u8
        ensures { result ≡ fault_number self }
    {
        match self {
            Fault::BadNumber => refusals::NUMBER,
            Fault::Cut => refusals::CUT,
            Fault::Unknown => refusals::UNKNOWN,
            Fault::Long => refusals::LONG,
        }
    }
}

// A record: something that a session is given.
#[derive(Clone, Copy)]
pub enum Record {
    // Kind 0, a request to the dispenser.
    Request { code: u8, upper: u32, lower: u32 },
    // Kind 1, a byte from the dispenser.
    DispenserByte(u8),
    // Kind 2, milliseconds, for both sessions.
    Tick(u32),
    // Kind 3, a byte from the validator.
    ValidatorByte(u8),
    // Kind 4, a request to the validator.
    Command(u8),
    // Kind 5, the operator clears the dispenser's line. It has no number.
    Clear,
}

// What the next byte belongs to: a record's kind, or one of its numbers.
#[derive(Clone, Copy)]
pub enum Place {
    Kind,
    Code,
    Upper,
    Lower,
    FromDispenser,
    Milliseconds,
    FromValidator,
    ToValidator,
    // To nothing any more: the recording is bad, and stays so.
    Broken(Fault),
}

// A recording read so far.
#[derive(Clone, Copy)]
pub struct Reader {
    // Where the record begun has its kind byte; of a bad recording, the record in which that shows.
    pub start: u64,
    // What the groups read of a number say, and 128 to their number.
    pub acc: u64,
    pub weight: u64,
    // The numbers of a request that were read.
    pub code: u64,
    pub upper: u64,
    pub place: Place,
}

// Why a recording is bad, and the offset of the record in which it shows.
#[derive(Clone, Copy)]
pub struct Bad<A> {
    pub fault: Fault,
    pub at: A,
}

// The step over one byte: what it leaves, and the record that it ends, if it ends one.
#[derive(Clone, Copy)]
pub struct Step {
    pub reader: Reader,
    pub outcome: Result<Option<Record>, Bad<u64>>,
}

fn more(reader: Reader) -> Step
    ensures { result ≡ more reader }
{
    Step {
        reader,
        outcome: Ok(None),
    }
}

fn whole(x: Record) -> Step
    ensures { result ≡ whole x }
{
    Step {
        reader: Reader::fresh(),
        outcome: Ok(Some(x)),
    }
}

// Is the code in kind 4's list?
pub fn is_command(code: u32) -> bool
    ensures { result ≡ (in_list code).test }
{
    if code == 0x30 {
        return true;
    }
    if code == 0x33 {
        return true;
    }
    if code == 0x35 {
        return true;
    }
    if code == 0x36 {
        return true;
    }
    if code == 0x38 {
        return true;
    }
    code == 0x41
}

// Is the code in the dispenser's table?
pub fn is_request(code: u64) -> bool
    ensures { result ≡ (known code).test }
{
    if 255 < code {
        return false;
    }
    0 < answer_length(code as u8)
}

impl Reader {
    // The most bytes that a recording may have (02, Q-7). Every offset and every count of records fits a u32: a record has at least one byte.
    pub const MOST: u64 = 4_294_967_295;

    // Between records.
    pub fn fresh() -> Reader
        ensures { result ≡ fresh_reader }
    {
        Reader::awaiting(0, Place::Kind)
    }

    // A record that starts at an offset, and what its next byte belongs to.
    fn awaiting(start: u64, place: Place) -> Reader
        ensures { result ≡ awaiting start place }
    {
        Reader {
            start,
            acc: 0,
            weight: 1,
            code: 0,
            upper: 0,
            place,
        }
    }

    // The same, with another group of its number read.
    fn grown(self, acc: u64, weight: u64) -> Reader
        ensures { result ≡ grown self acc weight }
    {
        let p = self.place;
        Reader {
            start: self.start,
            acc,
            weight,
            code: self.code,
            upper: self.upper,
            place: p,
        }
    }

    // The next number of a request.
    fn next_number(self, code: u64, upper: u64, place: Place) -> Reader
        ensures { result ≡ next_number self code upper place }
    {
        Reader {
            start: self.start,
            acc: 0,
            weight: 1,
            code,
            upper,
            place,
        }
    }

    // A fault in the record at an offset. The reader stays at it.
    fn refused(why: Fault, at: u64) -> Step
        ensures { result ≡ refused_at at why }
    {
        Step {
            reader: Reader::awaiting(at, Place::Broken(why)),
            outcome: Err(Bad { fault: why, at }),
        }
    }

    // A kind byte at an offset.
    fn kind(at: u64, b: u8) -> Step
        ensures { result ≡ kind_byte at b }
    {
        if b == 0 {
            return more(Reader::awaiting(at, Place::Code));
        }
        if b == 1 {
            return more(Reader::awaiting(at, Place::FromDispenser));
        }
        if b == 2 {
            return more(Reader::awaiting(at, Place::Milliseconds));
        }
        if b == 3 {
            return more(Reader::awaiting(at, Place::FromValidator));
        }
        if b == 4 {
            return more(Reader::awaiting(at, Place::ToValidator));
        }
        if b == 5 {
            return whole(Record::Clear);
        }
        Reader::refused(Fault::Unknown, at)
    }

    // The last number of a request is read.
    fn request(self, lower: u32) -> Step
        ensures { result ≡ request_read self lower }
    {
        if is_request(self.code) {
            return whole(Record::Request {
                code: (self.code % 256) as u8,
                upper: (self.upper % NUMBER_END) as u32,
                lower,
            });
        }
        Reader::refused(Fault::Unknown, self.start)
    }

    // The number of a dispenser byte is read.
    fn dispenser_byte(self, n: u32) -> Step
        ensures { result ≡ byte_read self n (Record.DispenserByte n) }
    {
        if 255 < n {
            return Reader::refused(Fault::Unknown, self.start);
        }
        whole(Record::DispenserByte(n as u8))
    }

    // The number of a validator byte is read.
    fn validator_byte(self, n: u32) -> Step
        ensures { result ≡ byte_read self n (Record.ValidatorByte n) }
    {
        if 255 < n {
            return Reader::refused(Fault::Unknown, self.start);
        }
        whole(Record::ValidatorByte(n as u8))
    }

    // The code of a command to the validator is read.
    fn command(self, code: u32) -> Step
        ensures { result ≡ command_read self code }
    {
        if is_command(code) {
            return whole(Record::Command((code % 256) as u8));
        }
        Reader::refused(Fault::Unknown, self.start)
    }

    // A number of the record is read. Where a kind byte is due no number is, nor after a fault.
    fn number(self, n: u32) -> Step
        ensures { result ≡ numbered self.place self n }
    {
        let p = self.place;
        match p {
            Place::Kind => more(self),
            Place::Code => more(self.next_number(n as u64, self.upper, Place::Upper)),
            Place::Upper => more(self.next_number(self.code, n as u64, Place::Lower)),
            Place::Lower => self.request(n),
            Place::FromDispenser => self.dispenser_byte(n),
            Place::Milliseconds => whole(Record::Tick(n)),
            Place::FromValidator => self.validator_byte(n),
            Place::ToValidator => self.command(n),
            Place::Broken(why) => Reader::refused(why, self.start),
        }
    }

    // A group of a number.
    fn group(self, b: u8) -> Step
        ensures { result ≡ grouped self b }
    {
        match next_group(self.acc, self.weight, b) {
            Some(Group::More { acc, weight }) => more(self.grown(acc, weight)),
            Some(Group::Last(n)) => self.number(n),
            None => Reader::refused(Fault::BadNumber, self.start),
        }
    }

    // A byte, which stands at an offset, wherever that is.
    pub fn byte(self, at: u64, b: u8) -> Step
        ensures { result ≡ read_byte self at b }
    {
        let p = self.place;
        match p {
            Place::Kind => Reader::kind(at, b),
            Place::Broken(why) => Reader::refused(why, self.start),
            _ => self.group(b),
        }
    }

    // A byte past the limit of a recording. After a fault it says that fault.
    fn past(self, at: u64) -> Step
        ensures { result ≡ past_in self.place self at }
    {
        let p = self.place;
        match p {
            Place::Broken(why) => Reader::refused(why, self.start),
            _ => Reader::refused(Fault::Long, at),
        }
    }

    // A byte of a recording, which stands at an offset: the byte past the limit is 24, whatever else it would show.
    pub fn taken(self, at: u64, b: u8) -> Step
        ensures { result ≡ taken_byte self at b }
    {
        if Reader::MOST <= at {
            return self.past(at);
        }
        self.byte(at, b)
    }

    // The recording has ended: it is cut short where a record is begun, and bad where a fault was met.
    pub fn ended(self) -> Result<(), Bad<u64>>
        ensures { result ≡ ended self }
    {
        let p = self.place;
        match p {
            Place::Kind => Ok(()),
            Place::Broken(why) => Err(Bad {
                fault: why,
                at: self.start,
            }),
            _ => Err(Bad {
                fault: Fault::Cut,
                at: self.start,
            }),
        }
    }
}

// What a whole recording is: good, or bad as its first fault says.
pub fn judge(recording: &[u8]) -> Result<(), Bad<u64>>
    ensures { result ≡ verdict recording.now }
{
    let mut reader = Reader::fresh();
    for (i, &b) in recording.iter().enumerate() {
        let step = reader.taken(i as u64, b);
        if let Err(bad) = step.outcome {
            return Err(bad);
        }
        reader = step.reader;
    }
    reader.ended()
}
