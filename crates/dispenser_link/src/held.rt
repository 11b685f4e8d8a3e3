// A session and a reply as C holds them: no enum may cross that border, so a phase and a closing are numbers.
ghost use Rattle.std.specs.Prelude.{◌≡◌};
ghost use Rattle.dispenser_link.specs.Held.{phase_number, phase_of, held_sums, sums_of, held, session_of, error_of, closed, told};

use dispenser_frame_rules::Answer;
use dispenser_rules::{Account, Asked, Cassettes, Closing, Reply, Requests, Session};
use exchange_rules::{Line, Notes, Phase, Sums};

// The sums of a cassette, in the report's order.
#[repr(C)]
#[derive(Clone, Copy)]
pub struct HeldSums {
    pub asked: u32,
    pub paid: u32,
    pub short: u32,
    pub over: u32,
    pub refused: u32,
    pub unknown: u32,
    pub pending: u32,
    pub rejected: u32,
}

// The command that is open, or was last.
#[repr(C)]
#[derive(Clone, Copy)]
pub struct HeldAsked {
    pub code: u8,
    pub upper: u32,
    pub lower: u32,
    pub span: usize,
}

// The session: its line, the command, the sums of both cassettes and the gathering store. The kept requests do not cross the border: no call needs them.
#[repr(C)]
#[derive(Clone, Copy)]
pub struct Held {
    pub left: u64,
    pub quiet: u64,
    pub accepted: u64,
    pub handed: u32,
    pub naks: u32,
    pub gathered: usize,
    pub doubts: u32,
    pub phase: u8,
    pub asked: HeldAsked,
    pub upper: HeldSums,
    pub lower: HeldSums,
    pub store: [u8; 21],
}

// What a call answers, in numbers since C has no enum with values: 0, or the number with which it was declined; the bytes that it put; 0, or 1, 2, 3 for answered, refused, unknown; the answer's error byte, or 0.
#[repr(C)]
#[derive(Clone, Copy)]
pub struct HeldReply {
    pub put: usize,
    pub declined: u8,
    pub closing: u8,
    pub error: u8,
}

#[repr(C)]
#[derive(Clone, Copy)]
pub struct HeldOutcome {
    pub session: Held,
    pub reply: HeldReply,
}

fn phase_number(phase: Phase) -> u8
    ensures { result ≡ phase_number phase }
{
    match phase {
        Phase::Idle => 0,
        Phase::First => 1,
        Phase::Start => 2,
        Phase::Inside => 3,
    }
}

#[tactic(auto, using(refusals::proofs::Rules::tests), unfolding(crate::specs::Held::phase_of))]
fn phase_of(n: u8) -> Phase
    ensures { result ≡ phase_of n }
{
    match n {
        1 => Phase::First,
        2 => Phase::Start,
        3 => Phase::Inside,
        _ => Phase::Idle,
    }
}

fn held_sums(s: Sums) -> HeldSums
    ensures { result ≡ held_sums s }
{
    HeldSums {
        asked: s.asked.0,
        paid: s.paid.0,
        short: s.short.0,
        over: s.over.0,
        refused: s.refused.0,
        unknown: s.unknown.0,
        pending: s.pending.0,
        rejected: s.rejected.0,
    }
}

fn sums_of(s: HeldSums) -> Sums
    ensures { result ≡ sums_of s }
{
    Sums {
        asked: Notes(s.asked),
        paid: Notes(s.paid),
        short: Notes(s.short),
        over: Notes(s.over),
        refused: Notes(s.refused),
        unknown: Notes(s.unknown),
        pending: Notes(s.pending),
        rejected: Notes(s.rejected),
    }
}

// The session as it is held.
#[tactic(auto, unfolding(crate::specs::Held::held))]
pub(crate) fn held_of(s: Session) -> Held
    ensures { result ≡ held s }
{
    let Session {
        line,
        asked,
        account,
        store,
    } = s;
    Held {
        left: line.left,
        quiet: line.quiet,
        accepted: line.accepted,
        handed: line.handed,
        naks: line.naks,
        gathered: line.gathered,
        doubts: line.doubts,
        phase: phase_number(line.phase),
        asked: HeldAsked {
            code: asked.code,
            upper: asked.upper,
            lower: asked.lower,
            span: asked.span,
        },
        upper: held_sums(account.cassettes.upper),
        lower: held_sums(account.cassettes.lower),
        store,
    }
}

// The session that is held, with no request kept.
#[tactic(auto, unfolding(crate::specs::Held::session_of))]
pub(crate) fn session_of(h: Held) -> Session
    ensures { result ≡ session_of h }
{
    let store = h.store;
    Session {
        line: Line {
            left: h.left,
            quiet: h.quiet,
            accepted: h.accepted,
            handed: h.handed,
            naks: h.naks,
            gathered: h.gathered,
            doubts: h.doubts,
            phase: phase_of(h.phase),
        },
        asked: Asked {
            code: h.asked.code,
            upper: h.asked.upper,
            lower: h.asked.lower,
            span: h.asked.span,
        },
        account: Account {
            cassettes: Cassettes {
                upper: sums_of(h.upper),
                lower: sums_of(h.lower),
            },
            requests: Requests::fresh(),
        },
        store,
    }
}

fn error_of(answer: Answer) -> u8
    ensures { result ≡ error_of answer }
{
    match answer {
        Answer::Purged { error }
        | Answer::PaidOne { error, .. }
        | Answer::PaidBoth { error, .. }
        | Answer::Tested { error, .. }
        | Answer::Status { error, .. } => error,
    }
}

fn closed(put: usize, closing: Closing) -> HeldReply
    ensures { result ≡ closed put closing }
{
    let (closing, error) = match closing {
        Closing::Nothing => (0, 0),
        Closing::Answered(answer, _) => (1, error_of(answer)),
        Closing::Refused => (2, 0),
        Closing::Unknown => (3, 0),
    };
    HeldReply {
        put,
        declined: 0,
        closing,
        error,
    }
}

// A reply in numbers.
pub(crate) fn told(reply: Reply) -> HeldReply
    ensures { result ≡ told reply }
{
    match reply {
        Ok(done) => closed(done.put, done.closing),
        Err(why) => HeldReply {
            put: 0,
            declined: why.number(),
            closing: 0,
            error: 0,
        },
    }
}
