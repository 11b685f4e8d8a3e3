// What is said of somebody: the name before, and the sentence behind it.
ghost use Rattle.std.specs.Prelude.{◌+◌, ◌≤◌};

use text::{Said, write};

// Something said of a line, of a cassette or of a sum: nothing, where nothing is said.
pub(crate) fn part(line: &mut [u8], at: usize, whose: usize, said: Said) -> usize
    ensures { result ≤ at + 520 }
{
    if said.sentence == Said::NOTHING {
        return at;
    }
    let a = write(line, at, Said::alone(whose));
    write(line, a, said)
}
