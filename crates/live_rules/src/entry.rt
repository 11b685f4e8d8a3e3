// What entering a record leaves.
use crate::desk::Lived;
use refusals::Refusal;

// Why a record is not entered: the writer refuses it, or the recording may not grow by so much (document 01's number 24).
#[derive(Clone, Copy)]
pub enum NotEntered {
    Refused(Refusal),
    Full,
}

// Where nothing was entered, the desk is as it was, and both replies are Done, with nothing put and no closing.
#[derive(Clone, Copy)]
pub struct Entered {
    // How many bytes the record has at the room's start.
    pub entry: Result<usize, NotEntered>,
    pub lived: Lived,
}
