// Memory as lines of address, bytes and letters, for people.
#![tactic(auto)]

ghost use Rattle.std.specs.Prelude.{◌≡◌, ◌≤◌, length, take, drop};
ghost use Rattle.console_text.specs.Text.{page, put};
ghost use Rattle.console_dump.specs.Dump.{letter_of, letters as Dump·letters, cell_text, cells as Dump·cells, address_text, row_text, dump_text, dump_at, dump_of};

use console_chip::answers::error;
use console_text::numbers::number_of;
use console_text::page::{byte, copies, hex, text};
use words::choice::when;

const WORD: u32 = 0xffff_ffff;

fn letter_of(b: u8) -> u8
    ensures { result ≡ letter_of b }
{
    when((32 <= b) & (b <= 126), b, b'.')
}

fn letters(out: &mut [u8], at: usize, bytes: &[u8]) -> usize
    ensures { page out.new result ≡ put (page out.old at) (Dump·letters bytes.now) }
{
    let mut next = at;
    for &b in bytes {
        next = byte(out, next, letter_of(b));
    }
    next
}

fn cell(out: &mut [u8], at: usize, b: u8) -> usize
    ensures { page out.new result ≡ put (page out.old at) (cell_text b) }
{
    let one = [b; 1];
    let next = hex(out, at, &one);
    byte(out, next, b' ')
}

fn cells(out: &mut [u8], at: usize, bytes: &[u8]) -> usize
    ensures { page out.new result ≡ put (page out.old at) (Dump·cells bytes.now) }
{
    let mut next = at;
    for &b in bytes {
        next = cell(out, next, b);
    }
    next
}

fn address(out: &mut [u8], at: usize, a: usize) -> usize
    ensures { page out.new result ≡ put (page out.old at) (address_text a) }
{
    let pair = [(a / 256 % 256) as u8, (a % 256) as u8];
    if a < 65536 {
        return hex(out, at, &pair);
    }
    let next = byte(out, at, b'1');
    hex(out, next, &pair)
}

fn row(out: &mut [u8], at: usize, a: usize, bytes: &[u8]) -> usize
    requires { length bytes.now ≤ 16 }
    ensures { page out.new result ≡ put (page out.old at) (row_text a bytes.now) }
{
    let next = address(out, at, a);
    let next = text(out, next, b"  ");
    let next = cells(out, next, bytes);
    let next = copies(out, next, 3 * (16 - bytes.len()), b' ');
    let next = byte(out, next, b' ');
    letters(out, next, bytes)
}

// The row of the bytes from a place on, 16 of them or what is left.
fn row_from(out: &mut [u8], at: usize, a: usize, bytes: &[u8], from: usize) -> usize
    requires { from ≤ length bytes.now }
    ensures { page out.new result ≡ put (page out.old at) (row_text a (take 16 (drop from bytes.now))) }
{
    if bytes.len() - from < 16 {
        return row(out, at, a, &bytes[from..]);
    }
    let to = from + 16;
    row(out, at, a, &bytes[from..to])
}

// Memory from place a on, row by row.
fn rows(out: &mut [u8], at: usize, a: usize, bytes: &[u8]) -> usize
    requires { (1 ≤ length bytes.now) × (length bytes.now ≤ 16384) × (a ≤ 4294967295) }
    ensures { page out.new result ≡ put (page out.old at) (dump_text a bytes.now) }
{
    let mut next = row_from(out, at, a, bytes, 0);
    for k in 1..(bytes.len() + 15) / 16 {
        let i = 16 * k;
        next = byte(out, next, b'\n');
        next = row_from(out, next, a + i, bytes, i);
    }
    next
}

fn dump_at(array: &[u8], a: usize, n: usize, out: &mut [u8], at: usize) -> usize
    requires { (a ≤ 4294967295) × (n ≤ 16384) }
    ensures { page out.new result ≡ put (page out.old at) (dump_at array.now a n) }
{
    if array.len() < a {
        return error(out, at);
    }
    if array.len() - a < n {
        return error(out, at);
    }
    if n == 0 {
        return text(out, at, b"-");
    }
    let to = a + n;
    rows(out, at, a, &array[a..to])
}

#[tactic(auto, using(console_text::proofs::NumberLaws::number_fits), unfolding(console_chip::specs::Answers::numbered))]
pub fn dump(array: &[u8], place: &[u8], count: &[u8], out: &mut [u8], at: usize) -> usize
    ensures { page out.new result ≡ put (page out.old at) (dump_of array.now place.now count.now) }
{
    let Some(a) = number_of(place, WORD) else {
        return error(out, at);
    };
    let Some(n) = number_of(count, 16384) else {
        return error(out, at);
    };
    dump_at(array, a as usize, n as usize, out, at)
}
