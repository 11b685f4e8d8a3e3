// What the words of a line say: bytes in hex, without blanks.
ghost use Rattle.std.specs.Prelude.{◌≤◌, length};

// The most bytes that a word may say.
pub(crate) const MOST: usize = 200;

// Puts the bytes that the text begins with at the start of the store, as many as it holds, and says how many they are.
pub(crate) fn put_bytes(s: &[u8], store: &mut [u8]) -> usize
    ensures { result ≤ length store.new }
{
    let mut n: usize = 0;
    for (held, pair) in store.iter_mut().zip(s.chunks_exact(2)) {
        if !is_hex(pair[0]) {
            break;
        }
        *held = sheet::byte_at(pair, 0);
        n += 1;
    }
    n
}

// Is it a hex digit, in capitals?
fn is_hex(b: u8) -> bool {
    matches!(b, b'0'..=b'9' | b'A'..=b'F')
}
