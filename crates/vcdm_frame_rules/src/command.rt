// What a command asks.

// A count for each cassette, the top one first, as 000 names them.
#[derive(Clone, Copy)]
pub struct Counts {
    pub top: u32,
    pub second: u32,
    pub third: u32,
    pub bottom: u32,
}

// A command's code, its counts and its serial. Where no notes are asked each count is 0, and so is the serial.
#[derive(Clone, Copy)]
pub struct Command {
    pub code: u8,
    pub counts: Counts,
    pub serial: u8,
}
