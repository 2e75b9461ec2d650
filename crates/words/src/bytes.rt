// The two bytes of a word.
ghost use Rattle.std.specs.Prelude.{◌≡◌};
ghost use Rattle.words.specs.Bytes.{word_of, low_byte, high_byte, byte_of, with_byte};

pub fn word_of(low: u8, high: u8) -> u16
    ensures { result ≡ word_of low high }
{
    u16::from_le_bytes([low, high])
}

pub fn low_byte(w: u16) -> u8
    ensures { result ≡ low_byte w }
{
    (w % 256) as u8
}

pub fn high_byte(w: u16) -> u8
    ensures { result ≡ high_byte w }
{
    (w / 256) as u8
}

pub fn byte_of(w: u16, high: bool) -> u8
    ensures { result ≡ byte_of w high }
{
    if high { high_byte(w) } else { low_byte(w) }
}

pub fn with_byte(w: u16, high: bool, b: u8) -> u16
    ensures { result ≡ with_byte w high b }
{
    if high {
        word_of(low_byte(w), b)
    } else {
        word_of(b, high_byte(w))
    }
}
