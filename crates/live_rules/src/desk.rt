// What a record leaves.
use grading_rules::Desk;

// The desk, and what each session answered. That of a session which the record is not for is Done, with nothing put and no closing.
#[derive(Clone, Copy)]
pub struct Lived {
    pub desk: Desk,
    pub dispenser: dispenser_rules::Reply,
    pub validator: validator_rules::Reply,
}
