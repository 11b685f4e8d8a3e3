// What was booked: the account and the bills, before and after a record; and the requests that are kept.
ghost use Rattle.std.specs.Prelude.{◌+◌, ◌≤◌};

use crate::parts::part;
use dispenser_rules::{KeptRequest, Requests, Standing};
use exchange_rules::{Notes, Sums};
use text::{Said, byte, write};
use validator_rules::Bills;

// By how many a sum is another than before.
fn change(before: Notes, after: Notes) -> Said {
    if before.0 < after.0 {
        return Said::with(Said::MORE, [(after.0 - before.0) as u64, 0, 0, 0]);
    }
    if after.0 < before.0 {
        return Said::with(Said::FEWER, [(before.0 - after.0) as u64, 0, 0, 0]);
    }
    Said::alone(Said::NOTHING)
}

// The four sums of what was asked and paid, in the report's order.
fn paid(line: &mut [u8], at: usize, before: Sums, after: Sums) -> usize
    ensures { result ≤ at + 2_080 }
{
    let a = part(line, at, Said::ASKED, change(before.asked, after.asked));
    let b = part(line, a, Said::PAID, change(before.paid, after.paid));
    let c = part(line, b, Said::SHORT, change(before.short, after.short));
    part(line, c, Said::OVER, change(before.over, after.over))
}

// The other four.
fn unpaid(line: &mut [u8], at: usize, before: Sums, after: Sums) -> usize
    ensures { result ≤ at + 2_080 }
{
    let a = part(
        line,
        at,
        Said::REFUSED_SUM,
        change(before.refused, after.refused),
    );
    let b = part(
        line,
        a,
        Said::UNKNOWN,
        change(before.unknown, after.unknown),
    );
    let c = part(line, b, Said::OPEN, change(before.pending, after.pending));
    part(
        line,
        c,
        Said::REJECTED,
        change(before.rejected, after.rejected),
    )
}

// What was booked of a cassette: nothing is told where every sum is as before.
pub(crate) fn booked(
    line: &mut [u8],
    at: usize,
    cassette: usize,
    before: Sums,
    after: Sums,
) -> usize
    ensures { result ≤ at + 4_420 }
{
    let a = write(line, at, Said::alone(cassette));
    let b = paid(line, a, before, after);
    let c = unpaid(line, b, before, after);
    if a == c { at } else { c }
}

// That a bill of a type was booked, if one was.
fn bill(y: usize, before: Bills, after: Bills) -> Said {
    if before.0 == after.0 {
        Said::alone(Said::NOTHING)
    } else {
        Said::with(Said::BILL, [y as u64, 0, 0, 0])
    }
}

// Every type.
pub(crate) fn bills(line: &mut [u8], at: usize, before: [Bills; 24], after: [Bills; 24]) -> usize
    ensures { result ≤ at + 6_240 }
{
    let mut end = at;
    for (y, (&was, &is)) in before.iter().zip(&after).enumerate() {
        end = write(line, end, bill(y, was, is));
    }
    end
}

// How a kept request stands.
fn stands(standing: Standing) -> Said {
    match standing {
        Standing::Open => Said::alone(Said::OPEN),
        Standing::Answered { upper, lower } => Said::with(
            Said::KEPT_ANSWERED,
            [upper.0 as u64, lower.0 as u64, 0, 0],
        ),
        Standing::Refused => Said::alone(Said::REFUSED_SUM),
        Standing::Unknown => Said::alone(Said::UNKNOWN),
    }
}

// A kept request's line, as "45 upper 10 lower 0 handed 1 answered paid 10 0".
fn kept(line: &mut [u8], at: usize, request: KeptRequest) -> usize
    ensures { result ≤ at + 521 }
{
    let standing = request.standing;
    let a = write(
        line,
        at,
        Said::with(
            Said::KEPT,
            [
                request.code as u64,
                request.upper as u64,
                request.lower as u64,
                request.handed as u64,
            ],
        ),
    );
    let b = write(line, a, stands(standing));
    byte(line, b, b'\n')
}

// The line of the request at a place, if there is one.
fn kept_at(line: &mut [u8], at: usize, all: Requests, i: usize) -> usize
    ensures { result ≤ at + 521 }
{
    match dispenser_books::kept_at(all, i) {
        None => at,
        Some(request) => kept(line, at, request),
    }
}

// A room of so many bytes is never filled by the lines of the requests that are kept: nothing is cut.
pub const REQUESTS_ROOM: usize = 16_673;

// The lines of the requests that are kept, oldest first.
pub fn requests(line: &mut [u8], all: Requests) -> usize
    ensures { result ≤ 16_672 }
{
    let mut end = 0;
    for i in 0..Requests::MOST {
        end = kept_at(line, end, all, i);
    }
    end
}
