// The turns of the device's end of the line. They say what is to be done, and know nothing of notes.
ghost use Rattle.std.specs.Prelude.{◌≡◌};
ghost use Rattle.pretend_rules.specs.Wire.{is_busy, is_awaiting, idle, reading, awaiting, sent, waits, idle_byte, code_byte, last_byte, command_byte, again, answer_byte, heard, expired, passed};

use dispenser_frame::command_length;
use pretend_rules::{Act, Heard, Hearing, Stand, Turn, Wire};

// Where the code stands in a command, behind 04h, 50h, 02h; and how many bytes there are with it.
const CODE: usize = 3;

const WITH_CODE: usize = 4;

// Is a command being read, or its answer not yet at its end?
pub fn is_busy(was: Wire) -> bool
    ensures { result ≡ is_busy was.stand }
{
    !matches!(was.stand, Stand::Idle)
}

// Are the answer's fields awaited?
pub(crate) fn is_awaiting(was: Wire) -> bool
    ensures { result ≡ is_awaiting was.stand }
{
    matches!(was.stand, Stand::Awaiting)
}

// Nothing begun.
pub(crate) fn idle(was: Wire) -> Wire
    ensures { result ≡ idle was }
{
    Wire {
        answered: was.answered,
        ..Wire::fresh()
    }
}

// Inside a command: so much left of its wait, so many bytes gathered, of so many.
fn reading(was: Wire, left: u64, gathered: usize, span: usize) -> Wire
    ensures { result ≡ reading was left gathered span }
{
    Wire {
        left,
        sendings: 0,
        gathered,
        span,
        stand: Stand::Reading,
        ..was
    }
}

// 06h sent, to the so many-th command.
pub(crate) fn awaiting(answered: u64) -> Wire
    ensures { result ≡ awaiting answered }
{
    Wire {
        answered,
        stand: Stand::Awaiting,
        ..Wire::fresh()
    }
}

// The answer sent, the so many-th time.
pub(crate) fn sent(was: Wire, sendings: u32) -> Wire
    ensures { result ≡ sent was sendings }
{
    Wire {
        left: Wire::SILENCE,
        sendings,
        gathered: 0,
        span: 0,
        stand: Stand::Sent,
        ..was
    }
}

// The same, with so much left of its wait.
fn waits(was: Wire, left: u64) -> Wire
    ensures { result ≡ waits was left }
{
    Wire { left, ..was }
}

// With nothing begun, bytes before 04h are skipped.
#[tactic(auto, using(refusals::proofs::Rules::tests), unfolding(pretend_rules::specs::Wire::idle_byte))]
fn idle_byte(was: Wire, b: u8) -> Hearing
    ensures { result ≡ idle_byte was b }
{
    if b == 0x04 {
        return Hearing {
            wire: reading(was, Wire::FRAME, 1, WITH_CODE),
            heard: Heard::Keep,
        };
    }
    Hearing {
        wire: was,
        heard: Heard::Do(Act::Nothing),
    }
}

// A command's code, the so many-th byte: one that is not in the table gets 15h at once.
#[tactic(auto, using(refusals::proofs::Rules::tests), unfolding(pretend_rules::specs::Wire::code_byte))]
fn code_byte(was: Wire, gathered: usize, b: u8) -> Hearing
    ensures { result ≡ code_byte was gathered b }
{
    match command_length(b) {
        0 => Hearing {
            wire: idle(was),
            heard: Heard::Do(Act::Nak),
        },
        n => Hearing {
            wire: reading(was, was.left, gathered, n),
            heard: Heard::Keep,
        },
    }
}

// The last byte before the command is looked at: its code, or its check.
#[tactic(auto, using(refusals::proofs::Rules::tests), unfolding(pretend_rules::specs::Wire::last_byte))]
fn last_byte(was: Wire, b: u8) -> Hearing
    ensures { result ≡ last_byte was b }
{
    if was.gathered == CODE {
        return code_byte(was, WITH_CODE, b);
    }
    Hearing {
        wire: was,
        heard: Heard::Judge,
    }
}

// A byte of a command.
#[tactic(auto, using(refusals::proofs::Rules::tests), unfolding(pretend_rules::specs::Wire::command_byte))]
fn command_byte(was: Wire, b: u8) -> Hearing
    ensures { result ≡ command_byte was b }
{
    if was.gathered < was.span && was.gathered + 1 < was.span {
        return Hearing {
            wire: reading(was, was.left, was.gathered + 1, was.span),
            heard: Heard::Keep,
        };
    }
    last_byte(was, b)
}

// 15h came, or nothing in time: the answer is sent again, or after the third sending it ends.
#[tactic(auto, using(refusals::proofs::Rules::tests), unfolding(pretend_rules::specs::Wire::again))]
fn again(was: Wire) -> Turn
    ensures { result ≡ again was }
{
    if was.sendings < Wire::SENDINGS {
        return Turn {
            wire: sent(was, was.sendings + 1),
            act: Act::Again,
        };
    }
    Turn {
        wire: idle(was),
        act: Act::Finish,
    }
}

// After a sending: 06h ends it, 15h asks for it again, every other byte is ignored.
#[tactic(auto, using(refusals::proofs::Rules::tests), unfolding(pretend_rules::specs::Wire::answer_byte))]
fn answer_byte(was: Wire, b: u8) -> Hearing
    ensures { result ≡ answer_byte was b }
{
    match b {
        0x06 => Hearing {
            wire: idle(was),
            heard: Heard::Do(Act::Finish),
        },
        0x15 => {
            let turn = again(was);
            Hearing {
                wire: turn.wire,
                heard: Heard::Do(turn.act),
            }
        }
        _ => Hearing {
            wire: was,
            heard: Heard::Do(Act::Nothing),
        },
    }
}

// A byte arrives.
#[tactic(auto, unfolding(pretend_rules::specs::Wire::heard))]
pub(crate) fn heard(was: Wire, b: u8) -> Hearing
    ensures { result ≡ heard was b }
{
    match was.stand {
        Stand::Idle => idle_byte(was, b),
        Stand::Reading => command_byte(was, b),
        Stand::Awaiting => Hearing {
            wire: was,
            heard: Heard::Do(Act::Nothing),
        },
        Stand::Sent => answer_byte(was, b),
    }
}

// A wait has ended.
#[tactic(auto, unfolding(pretend_rules::specs::Wire::expired))]
fn expired(was: Wire) -> Turn
    ensures { result ≡ expired was }
{
    match was.stand {
        Stand::Reading => Turn {
            wire: idle(was),
            act: Act::Nak,
        },
        Stand::Idle | Stand::Awaiting => Turn {
            wire: waits(was, 0),
            act: Act::Nothing,
        },
        Stand::Sent => again(was),
    }
}

// So many milliseconds pass. A tick that ends a wait drops its excess.
#[tactic(auto, using(refusals::proofs::Rules::tests), unfolding(pretend_rules::specs::Wire::passed))]
pub(crate) fn passed(was: Wire, ms: u64) -> Turn
    ensures { result ≡ passed was ms }
{
    if ms < was.left {
        return Turn {
            wire: waits(was, was.left - ms),
            act: Act::Nothing,
        };
    }
    expired(was)
}
