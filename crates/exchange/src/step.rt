// What the session of any unit does at a step, whatever its closing is: it is done or declined, a byte is kept or sent, the gathered bytes are handed on.
ghost use Rattle.std.specs.Prelude.{◌≡◌};
ghost use Rattle.exchange_rules.specs.Step.{stepped, refused_step, byte_kept, byte_sent, bytes_gathered};

use exchange_rules::{Line, Step};
use refusals::{Declined, Done};

// A step that is done: so many bytes put, and a closing.
pub fn done<C>(line: Line, put: usize, closing: C) -> Step<C>
    ensures { result ≡ stepped line put closing }
{
    Step {
        line,
        reply: Ok(Done { put, closing }),
    }
}

// A step that is declined: the line stays as it was.
pub fn not_done<C>(line: Line, why: Declined) -> Step<C>
    ensures { result ≡ refused_step line why }
{
    Step {
        line,
        reply: Err(why),
    }
}

// Keeps a byte at its place of the gathering store.
pub fn keep(store: &mut [u8], at: usize, b: u8)
    ensures { store.new ≡ byte_kept store.old at b }
{
    if at < store.len() {
        store[at] = b;
    }
}

// One byte sent.
pub fn send(room: &mut [u8], b: u8)
    ensures { room.new ≡ byte_sent room.old b }
{
    keep(room, 0, b);
}

// The bytes of an answer that are gathered, where they stand in the store; no more than it holds.
pub fn gathered(store: &[u8], span: usize) -> &[u8]
    ensures { (result.now ≡ bytes_gathered store.now span)
        × (result.ref_ptr ≡ store.entry.ref_ptr) }
{
    &store[..span.min(store.len())]
}
