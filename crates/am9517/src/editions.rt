// Document 02, A2: the two editions.
ghost use Rattle.std.specs.Prelude.{◌≡◌};
ghost use Rattle.am9517.specs.Editions.{number_of, is_intel};

use crate::Edition;

pub fn edition_number(edition: Edition) -> u8
    ensures { result ≡ number_of edition }
{
    match edition {
        Edition::Am9517A => 0,
        Edition::Intel8237A => 1,
    }
}

pub fn is_intel(edition: u8) -> bool
    ensures { result ≡ is_intel edition }
{
    edition == 1
}
