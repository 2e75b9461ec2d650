// A work done again and again. A turn starts from one of two states, told by what the last turn gave, and all that it
// gives is stored: so no turn's work can be left out, or be done once for all turns.
ghost use Rattle.std.specs.Prelude.{ℕ, ◌<◌};

use am9517::{Controller, Edition};
use am9517_sheet::Form;

// The state of a sheet, a fresh one where the sheet is refused.
pub(crate) fn state_in(bytes: &[u8]) -> Controller {
    am9517_sheet::read(Form::One, Controller::fresh(Edition::Am9517A), bytes).controller
}

// A turn is given a state and its place, 0 or 1, and gives the next state and a number; the answer is the last one's. The state behind the last
// turn from the first sheet's goes to that sheet.
pub(crate) fn repeat<F: FnMut(usize, Controller, &mut Controller) -> u64>(
    first: &mut [u8],
    second: &[u8],
    times: u64,
    mut turn: F,
) -> u64
    requires { (state : F) (i : ℕ) (c : Controller) (next : _) → i < 2 → F.pre state i c next }
{
    let starts = [state_in(first), state_in(second)];
    let mut after = starts;
    let mut last = 0;
    for _ in 0..times {
        let i = (last % 2) as usize;
        last = turn(i, starts[i], &mut after[i]);
    }
    // a slice too short for a sheet stays as it is
    let _ = am9517_sheet::write(Form::One, after[0], first);
    last
}
