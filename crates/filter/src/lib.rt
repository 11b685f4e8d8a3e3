// What the filters at the desk share: records on their input, one at a time, and the line that says which bytes are to be sent.
#![tactic(auto)]

use recording::{Fault, Reader, Record};
use sheet::{print_bytes, print_text};
use std::io;
use std::io::{Read, Write};

// Why the next bytes are no record, or why they cannot be read.
#[derive(Clone, Copy)]
pub enum NoRecord {
    Bad(Fault),
    Failed(io::Error),
}

impl From<io::Error> for NoRecord {
    fn from(why: io::Error) -> NoRecord {
        NoRecord::Failed(why)
    }
}

// The next record; None where the input has ended. A byte is read at a time: the lines bring no more than some thousand in a second.
pub fn next<R: Read>(input: &mut R) -> Result<Option<Record>, NoRecord> {
    let mut reader = Reader::fresh();
    for _ in 0..u64::MAX {
        let mut read = [0u8; 1];
        let got = input.read(&mut read)?;
        if got < 1 {
            return no_byte(reader);
        }
        let step = reader.byte(0, read[0]);
        match step.outcome {
            Ok(None) => {}
            Ok(Some(x)) => {
                return Ok(Some(x));
            }
            Err(bad) => {
                return Err(NoRecord::Bad(bad.fault));
            }
        }
        reader = step.reader;
    }
    Ok(None)
}

// No byte came: the input has ended, which is a fault inside a record.
fn no_byte(reader: Reader) -> Result<Option<Record>, NoRecord> {
    match reader.ended() {
        Ok(()) => Ok(None),
        Err(bad) => Err(NoRecord::Bad(bad.fault)),
    }
}

// The first so many bytes of a room behind some words, as "send validator 02 03 06 33 DA 81"; nothing where there are none.
pub fn send<W: Write>(out: &mut W, words: &[u8], put: usize, room: &[u8]) -> io::Result<()> {
    if 0 < put {
        let end = sheet::at_most(put, room);
        print_text(out, words)?;
        print_bytes(out, &room[0..end])?;
        print_text(out, b"\n")?;
    }
    Ok(())
}
