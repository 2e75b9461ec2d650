// Bytes of a slice: a word read, a sum taken, a piece stored.
ghost use Rattle.std.specs.Prelude.{◌≡◌, ◌+◌, ◌<◌, ◌≤◌, length, take};
ghost use Rattle.am9517_sheet.specs.Bytes.{word, total, placed};
ghost use Rattle.am9517_sheet.specs.ClosedSums.{four_of, sixteen_of};
ghost use Rattle.am9517_sheet.specs.Form.{channels_at, body_size};

use crate::forms::Form;
use words::bytes::word_of;

// The word at place k. By hand: u16::from_le_bytes([b[k], b[k + 1]]) is no plainer, and word_of says it as specs/ does.
pub(crate) fn word(b: &[u8], k: usize) -> u16
    requires { k + 1 < length b.now }
    ensures { result ≡ word b.now k }
{
    word_of(b[k], b[k + 1])
}

// The sum of the four bytes from place k on.
fn sum_of_four(b: &[u8], k: usize) -> u16
    requires { k + 4 ≤ length b.now }
    ensures { (result ≡ four_of b.now k) × (result ≤ 1020) }
{
    u16::from(b[k]) + u16::from(b[k + 1]) + u16::from(b[k + 2]) + u16::from(b[k + 3])
}

fn sixteen(b: &[u8], k: usize) -> u16
    requires { k + 16 ≤ length b.now }
    ensures { (result ≡ sixteen_of b.now k) × (result ≤ 4080) }
{
    sum_of_four(b, k) + sum_of_four(b, k + 4) + sum_of_four(b, k + 8) + sum_of_four(b, k + 12)
}

// The sum of the bytes before the channels.
fn front_sum(form: Form, b: &[u8]) -> u16
    requires { body_size form ≤ length b.now }
    ensures { (result ≡ total (take (channels_at form) b.now)) × (result ≤ 510) }
{
    match form {
        Form::One => 0,
        Form::Two => u16::from(b[0]) + u16::from(b[1]),
    }
}

// The sum of a body's bytes. With no loop, it stays a function of its own and is compiled to vector code.
pub(crate) fn sum(form: Form, b: &[u8]) -> u16
    requires { body_size form ≤ length b.now }
    ensures { result ≡ total (take (body_size form) b.now) }
{
    let at = form.channels_at();
    let core = &b[at..];
    front_sum(form, b) + sixteen(core, 0) + sixteen(core, 16) + sixteen(core, 32)
}

// The piece is stored from place `at` on; the place behind it.
pub(crate) fn store(out: &mut [u8], at: usize, piece: &[u8]) -> usize
    requires { at + length piece.now ≤ length out.old }
    ensures { (out.new ≡ placed out.old at piece.now) × (result ≡ at + length piece.now) }
{
    let end = at + piece.len();
    out[at..end].copy_from_slice(piece);
    end
}
