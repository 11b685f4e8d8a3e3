// What marks a frame as one of the four-cassette unit's: its ID, its codes by their meaning, and the bytes that its serials run through. Document 02, Q-3, and 000.
pub const UNIT_ID: u8 = 0x30;

pub const RESET: u8 = 0x44;

pub const STATUS: u8 = 0x50;

pub const PURGE: u8 = 0x51;

pub const DISPENSE: u8 = 0x52;

pub const LAST_STATUS: u8 = 0x55;

// "The serial byte runs 21h to 7Fh and then begins again at 21h".
pub const FIRST_SERIAL: u8 = 0x21;

pub const LAST_SERIAL: u8 = 0x7F;

// Error 1Dh on the wire, "adding to 0x20" (000, chapter 4): the serial was repeated.
pub const REPEATED: u8 = 0x3D;
