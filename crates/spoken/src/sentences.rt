// Sentences, and what was told in a room.
use std::io;
use std::io::Write;
use text::Said;

// The first bytes of a room.
pub fn print<W: Write>(out: &mut W, room: &[u8], n: usize) -> io::Result<()> {
    if n <= room.len() {
        out.write_all(&room[0..n])?;
    }
    Ok(())
}

// A sentence.
pub fn say<W: Write>(out: &mut W, said: Said) -> io::Result<()> {
    let mut room = [0u8; 261];
    let n = text::write(&mut room, 0, said);
    print(out, &room, n)
}

// What was told in a room up to a place, behind a lead that stands for the first semicolon; nothing where nothing was told.
pub fn parts<W: Write>(out: &mut W, lead: &[u8], room: &[u8], n: usize) -> io::Result<()> {
    if n == 0 {
        return Ok(());
    }
    if n <= room.len() {
        print(out, lead, lead.len())?;
        print(out, &room[1..n], n - 1)?;
    }
    Ok(())
}
