// The bits of a byte. A bit above bit 7 reads as 0 and can't be changed.
ghost use Rattle.std.specs.Prelude.{◌≡◌, ◌^◌, ◌<◌, eqb};
ghost use Rattle.words.specs.Bits.{bit, with_bit};

pub fn bit(b: u8, n: usize) -> u8
    ensures { result ≡ bit b n }
{
    if n < 8 { (b >> n) % 2 } else { 0 }
}

pub fn is_set(b: u8, n: usize) -> bool
    ensures { result ≡ eqb (bit b n) 1 }
{
    bit(b, n) == 1
}

// 2 to the power n.
fn weight(n: usize) -> u8
    requires { n < 8 }
    ensures { result ≡ 2 ^ n }
{
    1 << n
}

pub fn with_bit(b: u8, n: usize, set: bool) -> u8
    ensures { result ≡ with_bit b n set }
{
    if 8 <= n {
        return b;
    }
    let w = weight(n);
    if set { b | w } else { b & (255 - w) }
}
