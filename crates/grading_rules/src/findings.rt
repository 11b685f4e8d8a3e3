// What a replay finds.
use dispenser_rules::{Account, LastErrors};
use recording::Bad;
use validator_rules::Bills;

// What a replay leaves for the report.
#[derive(Clone, Copy)]
pub struct Findings {
    pub account: Account,
    pub errors: LastErrors,
    pub bills: [Bills; 24],
    // The last bill table read.
    pub table: [u8; 120],
    pub declined: u32,
    pub records: u32,
    // Whether the recording is good.
    pub ending: Result<(), Bad<u32>>,
}
