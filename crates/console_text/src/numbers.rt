// The number that a word says.
ghost use Rattle.std.specs.Prelude.{◌≡◌, ◌≤◌};
ghost use Rattle.console_text.specs.Numbers.{digit_in, number_in, number_of};

// The value of a digit of a base.
#[tactic(auto, using(crate::proofs::NumberLaws::digit_decimal, crate::proofs::NumberLaws::digit_upper, crate::proofs::NumberLaws::digit_lower, crate::proofs::NumberLaws::digit_below, crate::proofs::NumberLaws::digit_between, crate::proofs::NumberLaws::digit_before, crate::proofs::NumberLaws::digit_behind, crate::proofs::NumberLaws::digit_some, crate::proofs::NumberLaws::digit_none))]
pub(crate) fn digit(b: u8, base: u8) -> Option<u8>
    requires { base ≤ 16 }
    ensures { result ≡ digit_in base b }
{
    let d = match b {
        b'0'..=b'9' => b - b'0',
        b'A'..=b'F' => b - b'A' + 10,
        b'a'..=b'f' => b - b'a' + 10,
        _ => return None,
    };
    if d < base { Some(d) } else { None }
}

#[tactic(auto, using(crate::proofs::NumberLaws::number_none, crate::proofs::NumberLaws::number_some))]
fn number_in(s: &[u8], base: u8, most: u32) -> Option<u32>
    requires { (1 ≤ base) × (base ≤ 16) }
    ensures { result ≡ number_in base most s.now }
{
    if s.is_empty() {
        return None;
    }
    let mut v: u32 = 0;
    for &b in s {
        let d = digit(b, base)?;
        v = v.checked_mul(base as u32)?.checked_add(d as u32)?;
    }
    if v <= most { Some(v) } else { None }
}

// A number over `most` does not fit its place.
#[tactic(auto, using(crate::proofs::NumberLaws::number_hex, crate::proofs::NumberLaws::number_decimal))]
pub fn number_of(s: &[u8], most: u32) -> Option<u32>
    ensures { result ≡ number_of most s.now }
{
    match s.strip_prefix(b"0x") {
        Some(digits) => number_in(digits, 16, most),
        None => number_in(s, 10, most),
    }
}
