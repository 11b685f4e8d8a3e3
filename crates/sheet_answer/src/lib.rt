// A dispenser's answer, printed with its fields in 01's order. The bench programs share it.
#![tactic(auto)]

use dispenser_frame_rules::Answer;
use error_codes::ErrorClass;
use std::io;
use std::io::Write;

// An answer's code and the values of its fields.
pub fn print_answer<W: Write>(out: &mut W, answer: Answer) -> io::Result<()> {
    let code = dispenser_frame::code_of(answer) as u32;
    match answer {
        Answer::Purged { error } => sheet::print_form(out, b" $ error $", &[code, error as u32]),
        Answer::PaidOne {
            chk,
            exit,
            error,
            state,
            rejects,
            ..
        } => sheet::print_form(
            out,
            b" $ CHK # EXIT # error $ state $ rejects #",
            &[code, chk, exit, error as u32, state as u32, rejects],
        ),
        Answer::PaidBoth {
            upper_chk,
            upper_exit,
            lower_chk,
            lower_exit,
            error,
            upper_state,
            lower_state,
            upper_rejects,
            lower_rejects,
        } => sheet::print_form(
            out,
            b" $ upper CHK # EXIT # lower CHK # EXIT # error $ upper state $ lower state $ upper rejects # lower rejects #",
            &[
                code,
                upper_chk,
                upper_exit,
                lower_chk,
                lower_exit,
                error as u32,
                upper_state as u32,
                lower_state as u32,
                upper_rejects,
                lower_rejects,
            ],
        ),
        Answer::Tested {
            chk,
            error,
            state,
            rejects,
            ..
        } => sheet::print_form(
            out,
            b" $ CHK # error $ state $ rejects #",
            &[code, chk, error as u32, state as u32, rejects],
        ),
        Answer::Status {
            error,
            sensor0,
            sensor1,
        } => sheet::print_form(
            out,
            b" $ error $ sensor 0 $ sensor 1 $",
            &[code, error as u32, sensor0 as u32, sensor1 as u32],
        ),
    }
}

// What a reader hands back: the answer, and the class of its error by its name in 02, Q-5.
pub fn print_read<W: Write>(out: &mut W, answer: Answer, class: ErrorClass) -> io::Result<()> {
    print_answer(out, answer)?;
    match class {
        ErrorClass::Fine => sheet::print_text(out, b", error fine\n"),
        ErrorClass::OutOfNotes => sheet::print_text(out, b", error out of notes\n"),
        ErrorClass::NotSeated => sheet::print_text(out, b", error not seated\n"),
        ErrorClass::Jam => sheet::print_text(out, b", error jam\n"),
        ErrorClass::CountInDoubt => sheet::print_text(out, b", error count in doubt\n"),
        ErrorClass::OtherListed => sheet::print_text(out, b", error other listed\n"),
        ErrorClass::Unlisted => sheet::print_text(out, b", error unlisted\n"),
    }
}
