// The bytes that a word of hexadecimal digits says.
ghost use Rattle.std.specs.Prelude.{◌≡◌, ◌+◌, ◌*◌, ◌≤◌};
ghost use Rattle.console_text.specs.Text.{page, put};
ghost use Rattle.console_text.specs.Numbers.{all_digits};
ghost use Rattle.console_text.specs.Hex.{nibble, is_bytes, bytes_in};

use crate::numbers::digit;
use crate::page::byte;

fn all_digits(s: &[u8]) -> bool
    ensures { result ≡ all_digits 16 s.now }
{
    s.iter().all(|b| digit(*b, 16).is_some())
}

#[tactic(auto, using(crate::proofs::HexLaws::is_dash, crate::proofs::HexLaws::is_pairs))]
pub fn is_bytes(s: &[u8]) -> bool
    ensures { result ≡ is_bytes s.now }
{
    if s.len() == 1 {
        return s[0] == b'-';
    }
    !s.is_empty() & ((s.len() % 2 == 0) & all_digits(s))
}

// A digit as four bits; 0 where it is none.
#[tactic(auto, using(crate::proofs::HexLaws::nibble_said))]
fn nibble(b: u8) -> u8
    ensures { (result ≡ nibble b) × (result ≤ 15) }
{
    digit(b, 16).unwrap_or(0)
}

fn pair(high: u8, low: u8) -> u8
    ensures { result ≡ 16 * nibble high + nibble low }
{
    16 * nibble(high) + nibble(low)
}

// The bytes are put on a slice.
#[tactic(auto, using(crate::proofs::HexLaws::bytes_next, crate::proofs::HexLaws::bytes_end))]
pub fn store(out: &mut [u8], at: usize, s: &[u8]) -> usize
    ensures { page out.new result ≡ put (page out.old at) (bytes_in s.now) }
{
    let mut next = at;
    for two in s.chunks_exact(2) {
        next = byte(out, next, pair(two[0], two[1]));
    }
    next
}
