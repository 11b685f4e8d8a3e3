// Text, numbers and bytes on what is written to, mostly standard output. Of the bytes nothing is said: the run is held to what it must write. A
// write that fails is handed back.
ghost use Rattle.std.specs.Prelude.{◌≤◌, ◌<◌, IfOk};

use std::io;
use std::io::Write;

pub fn print_text<W: Write>(out: &mut W, s: &[u8]) -> io::Result<()> {
    out.write_all(s)
}

pub fn print_number<W: Write>(out: &mut W, n: usize) -> io::Result<()> {
    write!(out, "{n}")
}

// Text in which a # stands for the next value in decimal, and a $ for the next value as a byte.
pub fn print_form<W: Write>(out: &mut W, s: &[u8], values: &[u32]) -> io::Result<()> {
    let mut k = 0;
    for &b in s {
        k += part(out, b, value(values, k))?;
    }
    Ok(())
}

// What a reader refused, by 01's number.
pub fn print_fault<W: Write>(out: &mut W, number: u8) -> io::Result<()> {
    print_form(out, b" refused #\n", &[number as u32])
}

// A byte of such a text, or what it stands for; and how many values that took.
fn part<W: Write>(out: &mut W, b: u8, value: u32) -> io::Result<usize>
    ensures { IfOk result (λ n. n ≤ 1) }
{
    match b {
        b'#' => write!(out, "{value}")?,
        b'$' => {
            let [high, low] = hex((value % 256) as u8);
            print_text(out, &[high, low, b'h'])?
        }
        _ => {
            print_text(out, &[b])?;
            return Ok(0);
        }
    }
    Ok(1)
}

// The value at a place; 0 where there is none.
fn value(values: &[u32], at: usize) -> u32 {
    values.get(at).copied().unwrap_or(0)
}

// A byte in hex, in capitals as document 01 has them. No `write!`, which writes each part by itself: standard output has no buffer, and a byte is one write.
fn hex(b: u8) -> [u8; 2] {
    let digits = b"0123456789ABCDEF";
    [digits[(b / 16) as usize], digits[(b % 16) as usize]]
}

// The bytes of a frame, a blank before each: 04 50 02.
pub fn print_bytes<W: Write>(out: &mut W, s: &[u8]) -> io::Result<()> {
    for &b in s {
        let [high, low] = hex(b);
        print_text(out, &[b' ', high, low])?;
    }
    Ok(())
}
