// The step of a 16-bit register, and many steps at once.
ghost use Rattle.std.specs.Prelude.{◌≡◌};
ghost use Rattle.words.specs.Steps.{step, steps};

use crate::choice::when;

// One step from x.
pub fn step(x: u16, down: bool) -> u16
    ensures { result ≡ step 16 down x }
{
    ((x as u64 + when(down, 65535, 1)) % 65536) as u16
}

// n steps from x.
pub fn steps(x: u16, down: bool, n: u64) -> u16
    ensures { result ≡ steps 16 down x n }
{
    ((x as u64 + n % 65536 * when(down, 65535, 1)) % 65536) as u16
}
