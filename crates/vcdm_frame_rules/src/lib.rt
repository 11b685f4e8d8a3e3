// Frames of the four-cassette unit (VCDM), both sides of the line, as rules: the table of codes, what a command and an answer say, their layouts, and what is promised of
// writing and reading them. Document 02, Q-3, and 000.
#![tactic(auto)]

mod answer;
mod command;
mod table;

pub use answer::{Answer, Cassettes, Paid, Place, Places, Spare};
pub use command::{Command, Counts};
pub use table::{
    DISPENSE, FIRST_SERIAL, LAST_SERIAL, LAST_STATUS, PURGE, REPEATED, RESET, STATUS, UNIT_ID,
};
