// How a command closed, and what an answer says.
use ccnet_class::Class;
use dispenser_frame_rules::Answer;
use error_codes::ErrorClass;
use text::Said;

// How the dispenser's command closed, if it did.
pub(crate) fn dispenser_closed(closing: dispenser_rules::Closing) -> Said {
    match closing {
        dispenser_rules::Closing::Nothing => Said::alone(Said::NOTHING),
        dispenser_rules::Closing::Answered(_, _) => Said::alone(Said::ANSWERED),
        dispenser_rules::Closing::Refused => Said::alone(Said::CLOSED_REFUSED),
        dispenser_rules::Closing::Unknown => Said::alone(Said::CLOSED_UNKNOWN),
    }
}

// The fields of an answer, in 01's order: its counts, its error, and the rest.
#[derive(Clone, Copy)]
pub(crate) struct Fields {
    pub counts: Said,
    pub error: Said,
    pub rest: Said,
}

pub(crate) fn read_out(closing: dispenser_rules::Closing) -> Fields {
    match closing {
        dispenser_rules::Closing::Answered(said, class) => answer(said, class),
        _ => Fields {
            counts: Said::alone(Said::NOTHING),
            error: Said::alone(Said::NOTHING),
            rest: Said::alone(Said::NOTHING),
        },
    }
}

// The sentence of an error, by the class's name in 02, Q-5.
fn named(class: ErrorClass) -> usize {
    match class {
        ErrorClass::Fine => Said::FINE,
        ErrorClass::OutOfNotes => Said::OUT_OF_NOTES,
        ErrorClass::NotSeated => Said::NOT_SEATED,
        ErrorClass::Jam => Said::JAM,
        ErrorClass::CountInDoubt => Said::COUNT_IN_DOUBT,
        ErrorClass::OtherListed => Said::OTHER_LISTED,
        ErrorClass::Unlisted => Said::UNLISTED_ERROR,
    }
}

fn error(b: u8, class: ErrorClass) -> Said {
    Said::with(named(class), [b as u64, 0, 0, 0])
}

fn one_cassette(state: u8, rejects: u32) -> Said {
    Said::with(Said::ONE_CASSETTE, [state as u64, rejects as u64, 0, 0])
}

fn answer(said: Answer, class: ErrorClass) -> Fields {
    match said {
        Answer::Purged { error: b } => Fields {
            counts: Said::alone(Said::ANSWER),
            error: error(b, class),
            rest: Said::alone(Said::NOTHING),
        },
        Answer::PaidOne {
            cassette: _,
            chk,
            exit,
            error: b,
            state,
            rejects,
        } => Fields {
            counts: Said::with(Said::PAID_ONE, [chk as u64, exit as u64, 0, 0]),
            error: error(b, class),
            rest: one_cassette(state, rejects),
        },
        Answer::PaidBoth {
            upper_chk,
            upper_exit,
            lower_chk,
            lower_exit,
            error: b,
            upper_state,
            lower_state,
            upper_rejects,
            lower_rejects,
        } => Fields {
            counts: Said::with(
                Said::PAID_BOTH,
                [
                    upper_chk as u64,
                    upper_exit as u64,
                    lower_chk as u64,
                    lower_exit as u64,
                ],
            ),
            error: error(b, class),
            rest: Said::with(
                Said::BOTH_CASSETTES,
                [
                    upper_state as u64,
                    lower_state as u64,
                    upper_rejects as u64,
                    lower_rejects as u64,
                ],
            ),
        },
        Answer::Tested {
            cassette: _,
            chk,
            error: b,
            state,
            rejects,
        } => Fields {
            counts: Said::with(Said::TESTED, [chk as u64, 0, 0, 0]),
            error: error(b, class),
            rest: one_cassette(state, rejects),
        },
        Answer::Status {
            error: b,
            sensor0,
            sensor1,
        } => Fields {
            counts: Said::alone(Said::ANSWER),
            error: error(b, class),
            rest: Said::with(Said::SENSORS, [sensor0 as u64, sensor1 as u64, 0, 0]),
        },
    }
}

// How the validator's command closed, if it did; with what an answer says.
pub(crate) fn validator_closed(closing: validator_rules::Closing) -> Said {
    match closing {
        validator_rules::Closing::Nothing => Said::alone(Said::NOTHING),
        validator_rules::Closing::Acknowledged => Said::alone(Said::ACKNOWLEDGED),
        validator_rules::Closing::NotAcknowledged => Said::alone(Said::NOT_ACKNOWLEDGED),
        validator_rules::Closing::IllegalCommand => Said::alone(Said::ILLEGAL),
        validator_rules::Closing::Answered(class) => answered(class),
        validator_rules::Closing::Damaged => Said::alone(Said::DAMAGED),
        validator_rules::Closing::Silent => Said::alone(Said::SILENT),
    }
}

fn answered(class: Class) -> Said {
    match class {
        Class::State(b) => Said::with(Said::STATE, [b as u64, 0, 0, 0]),
        Class::Busy(b) => Said::with(Said::BUSY, [b as u64, 0, 0, 0]),
        Class::Rejecting(b) => Said::with(Said::REJECTING, [b as u64, 0, 0, 0]),
        Class::Failing(b) => Said::with(Said::FAILING, [b as u64, 0, 0, 0]),
        Class::Escrow(y) => Said::with(Said::ESCROW, [y as u64, 0, 0, 0]),
        Class::Stacked(y) => Said::with(Said::STACKED, [y as u64, 0, 0, 0]),
        Class::Returned(y) => Said::with(Said::RETURNED, [y as u64, 0, 0, 0]),
        Class::Table => Said::alone(Said::TABLED),
        _ => Said::alone(Said::UNLISTED),
    }
}
