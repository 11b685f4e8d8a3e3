// What the bench programs share: the words of a sheet's lines, printing, and the room that is lent. These are a test's own tools: what they
// print is compared.
#![tactic(auto)]

mod lines;
mod print;
mod room;
mod words;

pub use lines::{each_line, print_whole_line};
pub use print::{print_bytes, print_fault, print_form, print_number, print_text};
pub use room::{
    LONG, SHORT, at_most, fresh_room, print_done, print_not_done, print_put, print_refused,
};
pub use words::{
    byte, byte_at, frame, frame_byte, frame_from, frame_length, letter, line_end, number,
    number_at, part, past, print_line, print_one, size,
};
