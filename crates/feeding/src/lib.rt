// A recording that is read and replayed, in pieces of at most 64 KiB.
#![tactic(auto)]

ghost use Rattle.grading_rules.specs.Promises.{Counted};

mod progress;

use grading_rules::{Findings, Replaying};
use progress::Progress;
use recording::{Place, Reader};
use std::io;
use std::io::Read;

// What was fed, up to the end or to a read that failed, and then why.
#[derive(Clone, Copy)]
pub struct Fed {
    pub failed: Option<io::Error>,
    pub replay: Replaying,
}

// What is found, unless a read failed: then it is what the bytes before leave.
#[derive(Clone, Copy)]
pub struct Replayed {
    pub failed: Option<io::Error>,
    pub found: Findings,
}

// Reads into a lent buffer until the recording ends, a fault shows, or it is over the limit. It ends, whatever is read: each turn feeds at least one byte, so that there are no more
// turns than a recording may have bytes, and one for the byte past the limit.
pub fn fed_from<R: Read>(rt: HostRuntime, input: &mut R, piece: &mut [u8]) -> Fed
    ensures { Counted result.replay }
{
    let mut replay = Replaying::fresh();
    let mut progress = progress::start(rt);
    for _ in 0..Reader::MOST + 1 {
        let n = match input.read(piece) {
            Ok(0) => break,
            Ok(n) => n,
            Err(why) => return left(rt, replay, progress, Some(why)),
        };
        replay = grading::feed(replay, &piece[..n]);
        if is_bad(replay) {
            break;
        }
        progress = progress::reached(rt, progress, replay.fed);
    }
    left(rt, replay, progress, None)
}

// What the pieces leave, where nothing more is read.
fn left(rt: HostRuntime, replay: Replaying, progress: Progress, failed: Option<io::Error>) -> Fed
    requires { Counted replay }
    ensures { Counted result.replay }
{
    progress::stop(rt, progress);
    Fed { failed, replay }
}

// The same, and then the recording has ended.
pub fn replay_from<R: Read>(rt: HostRuntime, input: &mut R, piece: &mut [u8]) -> Replayed {
    let fed = fed_from(rt, input, piece);
    Replayed {
        failed: fed.failed,
        found: grading::ended(fed.replay),
    }
}

// Has a fault shown? Then no further byte counts.
fn is_bad(replay: Replaying) -> bool {
    matches!(replay.reader.place, Place::Broken(_))
}
