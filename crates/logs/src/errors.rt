// The address error of a record.
ghost use Rattle.std.specs.Prelude.{◌≡◌};
ghost use Rattle.logs.specs.Judge.{apart, signed};

// Claimed minus right, modulo 65,536, as a signed number.
#[tactic(auto, using(crate::proofs::ErrorLaws::low, crate::proofs::ErrorLaws::high, crate::proofs::ErrorLaws::minus_fits))]
pub(crate) fn error_of(claimed: u16, right: u16) -> i32
    ensures { result ≡ signed (apart claimed right) }
{
    let d = (claimed as u32 + 65536 - right as u32) % 65536;
    if d < 32768 {
        return d as i32;
    }
    let back = 65536 - d;
    0 - back as i32
}
