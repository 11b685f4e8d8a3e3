// What the body of a validator's answer says. Document 01, "CCNET frames".
#![tactic(auto)]

ghost use Rattle.std.specs.Prelude.{◌≡◌};
ghost use Rattle.ccnet_class.specs.Class.{is_state, is_rejection, is_failure, is_type, one_byte, two_bytes, class_of};

// The classes of answer bodies. ACK, NAK and illegal answer any command; the others but unknown and table are the listed poll answers. A bill type
// is 0 to 23.
#[derive(Clone, Copy)]
pub enum Class {
    Ack,
    Nak,
    Illegal,
    // One byte: the validator's state.
    State(u8),
    // 1Bh with any byte: busy.
    Busy(u8),
    // 1Ch with its reason: rejecting.
    Rejecting(u8),
    // 47h with what failed.
    Failing(u8),
    // 80h, 81h, 82h with a bill type.
    Escrow(u8),
    Stacked(u8),
    Returned(u8),
    // Any other body.
    Unknown,
    // The bill table, in answer to GET BILL TABLE: the command tells it, and no body by itself.
    Table,
}

// The highest bill type.
const LAST_TYPE: u8 = 23;

// Is it a state: 10h to 15h, 17h to 1Ah or 41h to 46h?
#[tactic(auto, using(refusals::proofs::Rules::tests))]
fn is_state(b: u8) -> bool
    ensures { result ≡ (is_state b).test }
{
    matches!(b, 0x10..=0x15 | 0x17..=0x1A | 0x41..=0x46)
}

// Is it a reason for rejecting: 60h to 6Ah or 6Ch?
#[tactic(auto, using(refusals::proofs::Rules::tests))]
fn is_rejection(b: u8) -> bool
    ensures { result ≡ (is_rejection b).test }
{
    matches!(b, 0x60..=0x6A | 0x6C)
}

// Does it say what failed: 50h to 56h or 5Fh?
#[tactic(auto, using(refusals::proofs::Rules::tests))]
fn is_failure(b: u8) -> bool
    ensures { result ≡ (is_failure b).test }
{
    matches!(b, 0x50..=0x56 | 0x5F)
}

// Is it a bill type: 0 to 23?
#[tactic(auto, using(refusals::proofs::Rules::tests))]
fn is_type(b: u8) -> bool
    ensures { result ≡ (is_type b).test }
{
    b <= LAST_TYPE
}

// What a body of one byte says.
#[tactic(auto, using(refusals::proofs::Rules::tests), unfolding(crate::specs::Class::one_byte))]
fn one_byte(b: u8) -> Class
    ensures { result ≡ one_byte b }
{
    match b {
        0x00 => Class::Ack,
        0xFF => Class::Nak,
        0x30 => Class::Illegal,
        _ if is_state(b) => Class::State(b),
        _ => Class::Unknown,
    }
}

// What a body of two bytes says.
#[tactic(auto, using(refusals::proofs::Rules::tests), unfolding(crate::specs::Class::two_bytes))]
fn two_bytes(a: u8, b: u8) -> Class
    ensures { result ≡ two_bytes a b }
{
    match a {
        0x1B => Class::Busy(b),
        0x1C if is_rejection(b) => Class::Rejecting(b),
        0x47 if is_failure(b) => Class::Failing(b),
        0x80 if is_type(b) => Class::Escrow(b),
        0x81 if is_type(b) => Class::Stacked(b),
        0x82 if is_type(b) => Class::Returned(b),
        _ => Class::Unknown,
    }
}

// What a body says.
#[tactic(auto, unfolding(crate::specs::Class::class_of))]
pub fn classify(body: &[u8]) -> Class
    ensures { result ≡ class_of body.now }
{
    match body {
        &[b] => one_byte(b),
        &[a, b] => two_bytes(a, b),
        _ => Class::Unknown,
    }
}
