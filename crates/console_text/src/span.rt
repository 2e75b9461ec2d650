// Where a word stands in a line.
ghost use Rattle.std.specs.Prelude.{◌≤◌};

// A word is what stands from `from` up to `to`; none, where the two are equal.
#[derive(Clone, Copy)]
pub struct Span {
    pub from: usize,
    pub to: usize,
    pub ghost ordered: { from ≤ to },
}
