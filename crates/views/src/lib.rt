// Where a session stands, for whoever tells it to a student: what it waits for, how long it has waited and how long it may, how often a command was handed over. Read off the session's own
// fields, and proved to be what the history of calls says.
#![tactic(auto)]

ghost use Rattle.std.specs.Prelude.{◌≡◌, cond, ltb, ◌-◌};
ghost use Rattle.views.specs.View.{idle, busy, answering, start_limit, dispenser_view, validator_view};

use exchange_rules::{Line, Phase};

// What a line waits for. With nothing open that is quiet, before the next command.
#[derive(Clone, Copy)]
pub struct View {
    pub phase: Phase,
    // Milliseconds waited so far, up to the limit.
    pub waited: u64,
    pub limit: u64,
    // Hand-overs of the open command, and our 15h for it; 0 where none is open.
    pub handed: u32,
    pub naks: u32,
    // Bytes that have come of an answer, and how many it has; 0 where that is not known yet.
    pub gathered: usize,
    pub span: usize,
}

// What is not left of a wait was waited.
fn waited(limit: u64, left: u64) -> u64
    ensures { result ≡ limit - left }
{
    limit.saturating_sub(left)
}

// Nothing is open.
fn idle(limit: u64, left: u64) -> View
    ensures { result ≡ idle limit left }
{
    View {
        phase: Phase::Idle,
        waited: waited(limit, left),
        limit,
        handed: 0,
        naks: 0,
        gathered: 0,
        span: 0,
    }
}

// The dispenser's command is open.
fn busy(line: Line, phase: Phase, limit: u64, gathered: usize, span: usize) -> View
    ensures { result ≡ busy line phase limit gathered span }
{
    View {
        phase,
        waited: waited(limit, line.left),
        limit,
        handed: line.handed,
        naks: line.naks,
        gathered,
        span,
    }
}

// How long an answer may take to start: after 06h, or after so many 15h of ours.
#[tactic(auto, using(refusals::proofs::Rules::tests), unfolding(crate::specs::View::start_limit))]
fn start_limit(naks: u32) -> u64
    ensures { result ≡ start_limit naks }
{
    if naks == 0 {
        return Line::ANSWER;
    }
    Line::AFTER_NAK
}

// The length that an answer has told, of which so many bytes have come: its third byte tells it.
fn length_told(gathered: usize, length: usize) -> usize
    ensures { result ≡ cond (ltb gathered 3) 0 length }
{
    if gathered < 3 {
        return 0;
    }
    length
}

// An answer of the validator is waited for, or inside.
fn answering(phase: Phase, limit: u64, left: u64, gathered: usize, length: usize) -> View
    ensures { result ≡ answering phase limit left gathered length }
{
    View {
        phase,
        waited: waited(limit, left),
        limit,
        handed: 1,
        naks: 0,
        gathered,
        span: length_told(gathered, length),
    }
}

#[tactic(auto, unfolding(crate::specs::View::dispenser_view))]
pub fn dispenser(s: dispenser_rules::Session) -> View
    ensures { result ≡ dispenser_view s }
{
    let line = s.line;
    let span = s.asked.span;
    match line.phase {
        Phase::Idle => idle(line.quiet, line.left),
        Phase::First => busy(line, Phase::First, Line::FIRST_BYTE, 0, span),
        Phase::Start => busy(line, Phase::Start, start_limit(line.naks), 0, span),
        Phase::Inside => busy(line, Phase::Inside, Line::FRAME, line.gathered, span),
    }
}

#[tactic(auto, unfolding(crate::specs::View::validator_view))]
pub fn validator(s: validator_rules::Session) -> View
    ensures { result ≡ validator_view s }
{
    let line = s.line;
    match line.phase {
        validator_rules::Phase::Idle => idle(validator_rules::Session::QUIET, line.left),
        validator_rules::Phase::Start => answering(
            Phase::Start,
            validator_rules::Session::START,
            line.left,
            0,
            0,
        ),
        validator_rules::Phase::Inside => answering(
            Phase::Inside,
            validator_rules::Session::FRAME,
            line.left,
            line.gathered,
            line.length,
        ),
    }
}
