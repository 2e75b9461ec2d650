// Text put on a lent slice: `at` is the place of the next byte, and what finds no room is left out.
ghost use Rattle.std.specs.Prelude.{◌≡◌, ◌<◌, replicate};
ghost use Rattle.console_text.specs.Text.{page, put_byte, put};
ghost use Rattle.console_text.specs.Numbers.{glyph as Numbers·glyph, decimal_text, signed_text};
ghost use Rattle.console_text.specs.Hex.{hex_text, bytes_text};

#[tactic(auto, unfolding(crate::specs::Text::put_byte, words::specs::Choice::when))]
pub fn byte(out: &mut [u8], at: usize, b: u8) -> usize
    ensures { page out.new result ≡ put_byte (page out.old at) b }
{
    if at < out.len() {
        out[at] = b;
        return at + 1;
    }
    at
}

#[tactic(auto, using(crate::proofs::TextLaws::put_more, crate::proofs::TextLaws::put_none))]
fn put_each(out: &mut [u8], at: usize, s: &[u8]) -> usize
    ensures { page out.new result ≡ put (page out.old at) s.now }
{
    let mut next = at;
    for &b in s {
        next = byte(out, next, b);
    }
    next
}

// One copy where there is room for all: of a text whose length is known, that is a few moves.
#[tactic(auto, using(crate::proofs::TextLaws::put_fitting))]
pub fn text(out: &mut [u8], at: usize, s: &[u8]) -> usize
    ensures { page out.new result ≡ put (page out.old at) s.now }
{
    let n = s.len();
    if at <= out.len() && n <= out.len() - at {
        out[at..at + n].copy_from_slice(s);
        return at + n;
    }
    put_each(out, at, s)
}

// n copies of a byte.
#[tactic(auto, using(crate::proofs::TextLaws::put_copy, crate::proofs::TextLaws::put_none))]
pub fn copies(out: &mut [u8], at: usize, n: usize, b: u8) -> usize
    ensures { page out.new result ≡ put (page out.old at) (replicate n b) }
{
    let mut next = at;
    for _ in 0..n {
        next = byte(out, next, b);
    }
    next
}

#[tactic(auto, unfolding(crate::specs::Numbers::glyph, words::specs::Choice::when))]
fn glyph(d: u8) -> u8
    requires { d < 16 }
    ensures { result ≡ Numbers·glyph d }
{
    if d < 10 { b'0' + d } else { 87 + d }
}

// Two hexadecimal digits a byte.
#[tactic(auto, using(crate::proofs::HexLaws::hex_more, crate::proofs::HexLaws::hex_none))]
pub fn hex(out: &mut [u8], at: usize, bytes: &[u8]) -> usize
    ensures { page out.new result ≡ put (page out.old at) (hex_text bytes.now) }
{
    let mut next = at;
    for &b in bytes {
        next = byte(out, next, glyph(b / 16));
        next = byte(out, next, glyph(b % 16));
    }
    next
}

// Bytes as a word of a line.
#[tactic(auto, unfolding(crate::specs::Hex::bytes_text, words::specs::Choice::when))]
pub fn bytes(out: &mut [u8], at: usize, s: &[u8]) -> usize
    ensures { page out.new result ≡ put (page out.old at) (bytes_text s.now) }
{
    if s.is_empty() {
        return text(out, at, b"-");
    }
    hex(out, at, s)
}

#[tactic(auto, using(crate::proofs::NumberLaws::decimal_small, crate::proofs::NumberLaws::decimal_more, crate::proofs::TextLaws::put_append, crate::proofs::TextLaws::put_one_lem))]
pub fn decimal(out: &mut [u8], at: usize, n: u64) -> usize
    ensures { page out.new result ≡ put (page out.old at) (decimal_text n) }
{
    let last = glyph((n % 10) as u8);
    if n < 10 {
        return byte(out, at, last);
    }
    let next = decimal(out, at, n / 10);
    byte(out, next, last)
}

// In decimal, `-` before a negative one.
#[tactic(auto, using(crate::proofs::SignedLaws::signed_below, crate::proofs::SignedLaws::signed_above))]
pub fn signed(out: &mut [u8], at: usize, n: i32) -> usize
    ensures { page out.new result ≡ put (page out.old at) (signed_text n) }
{
    let next = if n < 0 { text(out, at, b"-") } else { at };
    decimal(out, next, u64::from(n.unsigned_abs()))
}
