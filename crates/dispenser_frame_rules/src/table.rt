// What marks a frame as one of the Model 2000T's: its ID, and its codes by their meaning. Document 01, "Dispenser frames".
pub const MODEL_ID: u8 = 0x50;

pub const PURGE: u8 = 0x44;

pub const PAY_UPPER: u8 = 0x45;

pub const STATUS: u8 = 0x46;

pub const PAY_LOWER: u8 = 0x55;

pub const PAY_BOTH: u8 = 0x56;

pub const TEST_UPPER: u8 = 0x76;

pub const TEST_LOWER: u8 = 0x77;
