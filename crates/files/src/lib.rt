// Inputs of the programs, read whole into a lent room; the arguments that name them, as bytes; and what is said of one that cannot be read.
#![tactic(auto)]

ghost use Rattle.std.specs.Prelude.{◌≤◌, ◌<◌, length, IfOk, IfSome};

use std::env::{Env, FillError};
use std::fs::Files;
use std::io::{Cursor, Read, Write};
use std::{fs, io};

// The system's numbers of three errors: an argument that is missing, one that is longer than its room, and a path that is not UTF-8, by which the library opens none.
const MISSING: i32 = 22;

const TOO_LONG: i32 = 36;

const NOT_UTF_8: i32 = 84;

// Reads until the room is full or the input ends, and answers how many bytes that were, or why a read fails.
pub fn read_all<R: Read>(input: &mut R, room: &mut [u8]) -> io::Result<usize>
    ensures { IfOk result (λ n. n ≤ length room.new) }
{
    let mut at: usize = 0;
    // No `for`: each read says how far it goes.
    while at < room.len() {
        let n = input.read(&mut room[at..])?;
        if n == 0 {
            return Ok(at);
        }
        at += n;
    }
    Ok(at)
}

// Reads standard input, and answers how many bytes that were. Where it cannot be read, or fills the room, a line says so, the second one with
// `over`, and there is no answer.
pub fn read_sheet<R: Read, W: Write>(
    input: &mut R,
    says: &mut W,
    over: &[u8],
    room: &mut [u8],
) -> io::Result<Option<usize>>
    ensures { IfOk result (λ got. IfSome got (λ n. n < length room.new)) }
{
    match read_all(input, room) {
        Ok(n) if n < room.len() => Ok(Some(n)),
        Ok(_) => {
            says.write_all(over)?;
            Ok(None)
        }
        Err(why) => {
            fail(says, b"standard input", why);
            Ok(None)
        }
    }
}

// Reads the file that a path names, or answers why it cannot be opened or read.
pub fn read_file<F: Files>(files: &F, path: &[u8], room: &mut [u8]) -> io::Result<usize>
    ensures { IfOk result (λ n. n ≤ length room.new) }
{
    let mut file = open_read(files, path)?;
    read_all(&mut file, room)
}

// Opens the file that a path names, for reading.
pub fn open_read<F: Files>(files: &F, path: &[u8]) -> io::Result<F::File> {
    fs::open(files, path_text(path)?)
}

// A path's text.
pub fn path_text(path: &[u8]) -> io::Result<&str> {
    str::from_utf8(path).map_err(|_| io::Error::from_raw_os_error(NOT_UTF_8))
}

// How many arguments the program was started with, its own name among them.
pub fn arg_count<E: Env>(env: &E) -> usize {
    (0..usize::MAX)
        .find(|&i| matches!(env.arg(i, &mut []), Err(FillError::NotPresent)))
        .unwrap_or(usize::MAX)
}

// Puts an argument at the start of a room, and answers its length, or that it is missing or too long: then the room has its first bytes.
pub fn arg<E: Env>(env: &E, i: usize, room: &mut [u8]) -> io::Result<usize>
    ensures { IfOk result (λ n. n ≤ length room.new) }
{
    match env.arg(i, room) {
        Ok(n) => Ok(n),
        Err(FillError::NotPresent) => Err(io::Error::from_raw_os_error(MISSING)),
        Err(FillError::TooLong) => Err(io::Error::from_raw_os_error(TOO_LONG)),
    }
}

// Writes a line, mostly to standard error: what failed, as the caller names it, a colon and why. Nothing is said of a write that fails.
pub fn fail<W: Write>(out: &mut W, what: &[u8], why: io::Error) {
    let mut room = [0u8; 256];
    let n = error_text(why, &mut room);
    let _ = out.write_all(what);
    let _ = out.write_all(b": ");
    let _ = out.write_all(&room[..n]);
    let _ = out.write_all(b"\n");
}

// Puts an error's text at the start of a room, as the C library has it, without the number that stands behind it.
fn error_text(why: io::Error, room: &mut [u8; 256]) -> usize
    ensures { result ≤ 256 }
{
    let mut text = Cursor::new([0u8; 256]);
    let _ = write!(text, "{why}");
    *room = text.into_inner();
    end_of(room)
}

// Where the number stands, or else where the text ends.
fn end_of(text: &[u8; 256]) -> usize
    ensures { result ≤ 256 }
{
    (0..256)
        .find(|&i| text[i] == 0 || text[i..].starts_with(b" (os error "))
        .unwrap_or(256)
}
