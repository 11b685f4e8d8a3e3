// What a command asks.

// A command's code, and the count that it asks of each cassette; a count that is not asked is 0.
#[derive(Clone, Copy)]
pub struct Command {
    pub code: u8,
    pub upper: u32,
    pub lower: u32,
}
