// The line of the validator session as functions: waits, gathering, and when a frame is to be judged. It counts no bills; it carries the type that was last reported. What each
// function must do stands in `validator_rules`. Document 01, "The validator session".
#![tactic(auto)]

ghost use Rattle.std.specs.Prelude.{◌≡◌};
ghost use Rattle.validator_rules.specs.Line.{opened, closed, remembers, inside, waits, is_open, start_byte, address_byte, length_byte, further_byte, answer_byte, heard, expired, passed};

use validator_rules::{Heard, Hearing, Line, Phase, Session, Todo, Turn};

pub fn is_open(line: Line) -> bool
    ensures { result ≡ is_open line.phase }
{
    !matches!(line.phase, Phase::Idle)
}

// A request is accepted, and its frame sent.
pub fn opened(line: Line, code: u64, accepted: u64) -> Line
    ensures { result ≡ opened line code accepted }
{
    Line {
        left: Session::START,
        accepted,
        code,
        gathered: 0,
        length: 0,
        phase: Phase::Start,
        ..line
    }
}

// A closing: quiet time is 0.
fn closed(line: Line) -> Line
    ensures { result ≡ closed line }
{
    Line {
        left: Session::QUIET,
        gathered: 0,
        length: 0,
        phase: Phase::Idle,
        ..line
    }
}

// The same, with what the last listed answer to a POLL said.
pub fn remembers(line: Line, last: Option<usize>) -> Line
    ensures { result ≡ remembers line last }
{
    Line { last, ..line }
}

// Inside an answer, with so many bytes gathered of so many.
fn inside(line: Line, left: u64, gathered: usize, length: usize) -> Line
    ensures { result ≡ inside line left gathered length }
{
    Line {
        left,
        gathered,
        length,
        phase: Phase::Inside,
        ..line
    }
}

// The same, with so much left of its wait.
fn waits(line: Line, left: u64) -> Line
    ensures { result ≡ waits line left }
{
    Line { left, ..line }
}

// Waiting for an answer: bytes before 02h are skipped and do not restart the wait.
#[tactic(auto, using(refusals::proofs::Rules::tests), unfolding(validator_rules::specs::Line::start_byte))]
fn start_byte(line: Line, b: u8) -> Hearing
    ensures { result ≡ start_byte line b }
{
    if b == 0x02 {
        return Hearing {
            line: inside(line, Session::FRAME, 1, Session::STORE),
            heard: Heard::Keep,
        };
    }
    Hearing {
        line,
        heard: Heard::Skip,
    }
}

// The address of an answer.
#[tactic(auto, using(refusals::proofs::Rules::tests), unfolding(validator_rules::specs::Line::address_byte))]
fn address_byte(line: Line, b: u8) -> Hearing
    ensures { result ≡ address_byte line b }
{
    if b == 0x03 {
        return Hearing {
            line: inside(line, line.left, 2, line.length),
            heard: Heard::Keep,
        };
    }
    Hearing {
        line: closed(line),
        heard: Heard::Wrong,
    }
}

// The length byte of an answer.
#[tactic(auto, using(refusals::proofs::Rules::tests), unfolding(validator_rules::specs::Line::length_byte))]
fn length_byte(line: Line, b: u8) -> Hearing
    ensures { result ≡ length_byte line b }
{
    if b < 6 {
        return Hearing {
            line: closed(line),
            heard: Heard::Wrong,
        };
    }
    Hearing {
        line: inside(line, line.left, 3, b as usize),
        heard: Heard::Keep,
    }
}

// A byte of an answer past its length byte.
#[tactic(auto, using(refusals::proofs::Rules::tests), unfolding(validator_rules::specs::Line::further_byte))]
fn further_byte(line: Line) -> Hearing
    ensures { result ≡ further_byte line }
{
    if line.gathered < line.length && line.gathered + 1 < line.length {
        return Hearing {
            line: inside(line, line.left, line.gathered + 1, line.length),
            heard: Heard::Keep,
        };
    }
    Hearing {
        line: closed(line),
        heard: Heard::Judge,
    }
}

// Inside an answer: its address and its length are judged at their byte.
#[tactic(auto, using(refusals::proofs::Rules::tests), unfolding(validator_rules::specs::Line::answer_byte))]
fn answer_byte(line: Line, b: u8) -> Hearing
    ensures { result ≡ answer_byte line b }
{
    match line.gathered {
        1 => address_byte(line, b),
        2 => length_byte(line, b),
        _ => further_byte(line),
    }
}

// A byte arrives.
#[tactic(auto, unfolding(validator_rules::specs::Line::heard))]
pub fn heard(line: Line, b: u8) -> Hearing
    ensures { result ≡ heard line b }
{
    match line.phase {
        Phase::Idle => Hearing {
            line: waits(line, Session::QUIET),
            heard: Heard::Skip,
        },
        Phase::Start => start_byte(line, b),
        Phase::Inside => answer_byte(line, b),
    }
}

// A wait has ended.
#[tactic(auto, unfolding(validator_rules::specs::Line::expired))]
fn expired(line: Line) -> Turn
    ensures { result ≡ expired line }
{
    match line.phase {
        Phase::Idle => Turn {
            line: waits(line, 0),
            todo: Todo::Nothing,
        },
        Phase::Start => Turn {
            line: closed(line),
            todo: Todo::CloseSilent,
        },
        Phase::Inside => Turn {
            line: closed(line),
            todo: Todo::CloseDamaged,
        },
    }
}

// So many milliseconds pass. A tick that ends a wait drops its excess.
#[tactic(auto, using(refusals::proofs::Rules::tests), unfolding(validator_rules::specs::Line::passed))]
pub fn passed(line: Line, ms: u64) -> Turn
    ensures { result ≡ passed line ms }
{
    if ms < line.left {
        return Turn {
            line: waits(line, line.left - ms),
            todo: Todo::Nothing,
        };
    }
    expired(line)
}
