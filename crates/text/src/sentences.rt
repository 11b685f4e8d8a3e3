// Every sentence, a line for each. The same table serves to write them and to read them back. A # stands for a number, a ~ for one with a comma before each three digits, and a $ for a byte in hex.
use crate::Said;

pub(crate) const TABLE: [u8; 1799] = *b"
request pay upper #
request pay lower #
request pay both # #
request status
request purge
request test upper
request test lower
request $h upper # lower #
dispenser $h
tick #
validator $h
poll
reset
stack
return
hold
table
command $h
clear
 $h
 x#
# ms @#
bad # at #:
 $
requests
report
; refused #: the room lent is too short
; refused #: a code or a count is out of range
; refused #: a command is open
; refused #: quiet for ~ of ~ ms
; refused #: ~ commands were accepted
; refused #: a tick is 1 to ~ ms
; refused #: # payouts in succession closed unknown
; refused #: no such payout
; refused #: nothing is awaited
; dispenser
; validator
 sends
 closed answered
 closed refused
 closed unknown
 closed acknowledged
 closed refused by NAK
 closed illegal
 closed damaged
 closed silent
 closed answered state $h
 closed answered busy $h
 closed answered rejecting $h
 closed answered failing $h
 closed answered escrow type #
 closed answered stacked type #
 closed answered returned type #
 closed answered table
 closed answered unknown
; answer
; answer CHK #
; answer CHK # EXIT #
; answer upper CHK # EXIT # lower CHK # EXIT #
 error $h fine
 error $h out of notes
 error $h not seated
 error $h jam
 error $h count in doubt
 error $h other listed
 error $h unlisted
 state $h rejects #
 upper state $h lower state $h upper rejects # lower rejects #
 sensors $h $h
; booked upper
; booked lower
 asked
 paid
 short
 over
 refused
 unknown
 open
 rejected
 #
 -#
; bill type # booked
 waited ~ of ~ ms
 waits ~ ms for quiet
 waits ~ ms for the first byte, hand-over # of #
 waits ~ ms for an answer to start
 waits ~ ms for an answer to start, our 15h # of #
 waits ~ ms for the answer's end
; ignored
; skipped
; gathered #
; gathered # of #
$ upper # lower # handed #
 answered paid # #";

// A name for each line of the table: how many lines stand before it. The first line is empty.
impl Said {
    pub const NOTHING: usize = 0;

    // What came: the words of a record.
    pub const PAY_UPPER: usize = 1;

    pub const PAY_LOWER: usize = 2;

    pub const PAY_BOTH: usize = 3;

    pub const STATUS: usize = 4;

    pub const PURGE: usize = 5;

    pub const TEST_UPPER: usize = 6;

    pub const TEST_LOWER: usize = 7;

    pub const REQUEST: usize = 8;

    pub const DISPENSER_BYTE: usize = 9;

    pub const TICK: usize = 10;

    pub const VALIDATOR_BYTE: usize = 11;

    pub const POLL: usize = 12;

    pub const RESET: usize = 13;

    pub const STACK: usize = 14;

    pub const RETURN: usize = 15;

    pub const HOLD: usize = 16;

    pub const BILL_TABLE: usize = 17;

    pub const COMMAND: usize = 18;

    pub const CLEAR: usize = 19;

    // The first of these, and the last.
    pub const FIRST: usize = Said::PAY_UPPER;

    pub const LAST: usize = Said::CLEAR;

    // One more byte of the same line, and how many ticks of the same length.
    pub const FURTHER: usize = 20;

    pub const TIMES: usize = 21;

    // Where a record stands, a fault and its bytes, and what stands at the end.
    pub const PLACE: usize = 22;

    pub const BAD: usize = 23;

    pub const BYTE: usize = 24;

    pub const REQUESTS: usize = 25;

    pub const REPORT: usize = 26;

    // Why a call was refused. Number n of document 01 is REFUSED + n.
    pub const REFUSED: usize = 26;

    // Of which line something is said.
    pub const DISPENSER: usize = 36;

    pub const VALIDATOR: usize = 37;

    // What a line sends, and how its command closed.
    pub const SENDS: usize = 38;

    pub const ANSWERED: usize = 39;

    pub const CLOSED_REFUSED: usize = 40;

    pub const CLOSED_UNKNOWN: usize = 41;

    pub const ACKNOWLEDGED: usize = 42;

    pub const NOT_ACKNOWLEDGED: usize = 43;

    pub const ILLEGAL: usize = 44;

    pub const DAMAGED: usize = 45;

    pub const SILENT: usize = 46;

    pub const STATE: usize = 47;

    pub const BUSY: usize = 48;

    pub const REJECTING: usize = 49;

    pub const FAILING: usize = 50;

    pub const ESCROW: usize = 51;

    pub const STACKED: usize = 52;

    pub const RETURNED: usize = 53;

    pub const TABLED: usize = 54;

    pub const UNLISTED: usize = 55;

    // What an answer of the dispenser says: its counts, its error with the class, and the rest.
    pub const ANSWER: usize = 56;

    pub const TESTED: usize = 57;

    pub const PAID_ONE: usize = 58;

    pub const PAID_BOTH: usize = 59;

    pub const FINE: usize = 60;

    pub const OUT_OF_NOTES: usize = 61;

    pub const NOT_SEATED: usize = 62;

    pub const JAM: usize = 63;

    pub const COUNT_IN_DOUBT: usize = 64;

    pub const OTHER_LISTED: usize = 65;

    pub const UNLISTED_ERROR: usize = 66;

    pub const ONE_CASSETTE: usize = 67;

    pub const BOTH_CASSETTES: usize = 68;

    pub const SENSORS: usize = 69;

    // What was booked: the cassette, its sums in the report's order, by how many more or fewer; and a bill.
    pub const UPPER: usize = 70;

    pub const LOWER: usize = 71;

    pub const ASKED: usize = 72;

    pub const PAID: usize = 73;

    pub const SHORT: usize = 74;

    pub const OVER: usize = 75;

    pub const REFUSED_SUM: usize = 76;

    pub const UNKNOWN: usize = 77;

    pub const OPEN: usize = 78;

    pub const REJECTED: usize = 79;

    pub const MORE: usize = 80;

    pub const FEWER: usize = 81;

    pub const BILL: usize = 82;

    // A wait that ended, and one that begins: for quiet, a first byte, an answer's start, also after 15h of ours, and its end.
    pub const WAITED: usize = 83;

    pub const QUIET: usize = 84;

    pub const FIRST_BYTE: usize = 85;

    pub const START: usize = 86;

    pub const START_AGAIN: usize = 87;

    pub const END: usize = 88;

    // What became of a byte.
    pub const IGNORED: usize = 89;

    pub const SKIPPED: usize = 90;

    pub const GATHERED: usize = 91;

    pub const GATHERED_OF: usize = 92;

    // A kept request. One that is open, refused or unknown ends with the word of that sum.
    pub const KEPT: usize = 93;

    pub const KEPT_ANSWERED: usize = 94;
}
