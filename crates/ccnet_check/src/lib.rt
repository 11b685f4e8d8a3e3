// The check of CCNET frames, as 003's Pascal listing reckons it, a whole byte at a time. Document 01, "CCNET frames".
#![tactic(auto)]

ghost use Rattle.std.specs.Prelude.{◌≡◌};
ghost use Rattle.std.specs.Int.Bits.{bit_xor};
ghost use Rattle.ccnet_check.specs.Check.{turns, check};

// The check after one byte more: its eight turns at once. The high byte moves down; what the low byte leaves is reckoned with four shifts.
pub fn with_byte(c: u16, b: u8) -> u16
    ensures { result ≡ turns 8 (bit_xor c b) }
{
    let x = c ^ b as u16;
    let spread = (x ^ (x << 4)) % 256;
    (x >> 8) ^ ((spread << 8) ^ (spread << 3) ^ (spread >> 4))
}

// The check of all the bytes.
pub fn check_of(s: &[u8]) -> u16
    ensures { result ≡ check s.now }
{
    let mut c: u16 = 0;
    for &b in s {
        c = with_byte(c, b);
    }
    c
}
