// A way: the bytes that an end puts on it, on to the other end.
ghost use Rattle.std.specs.Prelude.{◌≤◌};

use std::io;
use std::io::Write;

// The most bytes that are put on a way in one run.
const MOST: usize = 4_096;

// The room that is lent to the calls of the end that puts; how many bytes it put, and how many of them have arrived at the other end or are lost.
#[derive(Drop)]
pub struct Way {
    room: usize,
    put: usize,
    heard: usize,
    bytes: [u8; MOST],
}

impl Way {
    // Nothing is on it yet.
    pub fn fresh(room: usize) -> Way {
        Way {
            room,
            put: 0,
            heard: 0,
            bytes: [0; MOST],
        }
    }

    // How many bytes of a room of 24 are lent to this end's calls.
    pub fn room(&self) -> usize
        ensures { result ≤ 24 }
    {
        self.room.min(24)
    }

    pub fn lend(&mut self, size: u32) {
        self.room = size as usize;
    }

    // So many of the bytes on their way, at most all.
    pub fn ahead(&self, n: u32) -> u32 {
        let left = self.put.saturating_sub(self.heard).min(MOST);
        n.min(left as u32)
    }

    // So many are lost.
    pub fn lose(&mut self, n: u32) {
        self.heard = self.heard % MOST + self.ahead(n) as usize;
    }

    // The next byte arrives.
    pub fn next(&mut self) -> u8 {
        let at = self.heard % MOST;
        self.heard = at + 1;
        self.bytes[at]
    }

    // A byte is put on its way, as long as the way holds it.
    fn put(&mut self, b: u8) {
        if self.put < MOST {
            self.bytes[self.put] = b;
            self.put += 1;
        }
    }

    // The first n bytes of the room, if any, are printed and put on their way.
    pub fn put_on<W: Write>(
        &mut self,
        out: &mut W,
        name: &[u8],
        n: usize,
        room: &[u8],
    ) -> io::Result<()> {
        if n == 0 {
            return Ok(());
        }
        let bytes = &room[..sheet::at_most(n, room)];
        sheet::print_text(out, name)?;
        sheet::print_bytes(out, bytes)?;
        sheet::print_text(out, b"\n")?;
        for &b in bytes {
            self.put(b);
        }
        Ok(())
    }
}
