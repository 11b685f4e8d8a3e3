// What a line waits for, and why it refuses, from its view.
use exchange_rules::{Line, Phase};
use refusals::Declined;
use text::Said;
use views::View;

// The value that a reason names first.
fn named(why: Declined, view: View) -> u64 {
    match why {
        Declined::Unquiet => view.waited,
        Declined::Spent => Line::COMMANDS,
        Declined::Tick => Line::TICK as u64,
        Declined::Stopped => Line::DOUBTS as u64,
        _ => 0,
    }
}

// Why a call was declined: its number, and the reason.
pub(crate) fn refused(why: Declined, view: View) -> Said {
    let number = why.number();
    Said::with(
        Said::REFUSED + number as usize,
        [number as u64, named(why, view), view.limit, 0],
    )
}

// A wait that begins.
fn begun(view: View) -> Said {
    let phase = view.phase;
    match phase {
        Phase::Idle => Said::with(Said::QUIET, [view.limit, 0, 0, 0]),
        Phase::First => Said::with(
            Said::FIRST_BYTE,
            [view.limit, view.handed as u64, Line::HAND_OVERS as u64, 0],
        ),
        Phase::Start => starting(view.limit, view.naks),
        Phase::Inside => Said::with(Said::END, [view.limit, 0, 0, 0]),
    }
}

// That an answer starts, after so many 15h of ours.
fn starting(limit: u64, naks: u32) -> Said {
    if naks == 0 {
        Said::with(Said::START, [limit, 0, 0, 0])
    } else {
        Said::with(
            Said::START_AGAIN,
            [limit, naks as u64, Line::NAKS as u64, 0],
        )
    }
}

// A wait of an open command that has ended. The milliseconds of a tick that ends it count up to its limit.
fn ended(view: View, ms: u32) -> Said {
    let phase = view.phase;
    if rank(phase) == 0 {
        return Said::alone(Said::NOTHING);
    }
    Said::with(
        Said::WAITED,
        [waited(view.waited, ms, view.limit), view.limit, 0, 0],
    )
}

fn waited(before: u64, ms: u32, limit: u64) -> u64 {
    if limit <= before || limit - before <= ms as u64 {
        limit
    } else {
        before + ms as u64
    }
}

// The phase as a number, to compare two.
fn rank(phase: Phase) -> u32 {
    match phase {
        Phase::Idle => 0,
        Phase::First => 1,
        Phase::Start => 2,
        Phase::Inside => 3,
    }
}

// Is the phase as it was?
pub(crate) fn is_same(before: View, after: View) -> bool {
    let was = before.phase;
    let is = after.phase;
    rank(was) == rank(is)
}

// The wait that ended and the one that began, where the line waits for something else than before.
#[derive(Clone, Copy)]
pub(crate) struct Waits {
    pub ended: Said,
    pub begun: Said,
}

pub(crate) fn turned(before: View, after: View, ms: u32) -> Waits {
    if before.handed == after.handed && is_same(before, after) {
        return Waits {
            ended: Said::alone(Said::NOTHING),
            begun: Said::alone(Said::NOTHING),
        };
    }
    Waits {
        ended: ended(before, ms),
        begun: begun(after),
    }
}

// Bytes of an answer that have come, if any, and of how many.
pub(crate) fn gathered(view: View) -> Said {
    match (view.gathered, view.span) {
        (0, _) => Said::alone(Said::NOTHING),
        (n, 0) => Said::with(Said::GATHERED, [n as u64, 0, 0, 0]),
        (n, all) => Said::with(Said::GATHERED_OF, [n as u64, all as u64, 0, 0]),
    }
}
