// One of two by a test.
ghost use Rattle.std.specs.Prelude.{◌≡◌};
ghost use Rattle.words.specs.Choice.{when};

pub fn when<T: Copy>(hit: bool, a: T, b: T) -> T
    ensures { result ≡ when hit a b }
{
    if hit { a } else { b }
}
