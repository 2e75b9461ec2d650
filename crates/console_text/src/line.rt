// The words of a line.
ghost use Rattle.std.specs.Prelude.{◌≡◌, ◌+◌, ◌≤◌, length};
ghost use Rattle.std.specs.List.{prefix_len};
ghost use Rattle.console_text.specs.Text.{same as Text·same};
ghost use Rattle.console_text.specs.Lines.{is_blank, is_letter, word_at, one_if, words_in, end_of, said_in};

pub use crate::span::Span;

// Whether two words are the same.
#[tactic(auto, using(crate::proofs::TextLaws::same_is))]
pub fn same(a: &[u8], b: &[u8]) -> bool
    ensures { result ≡ Text·same a.now b.now }
{
    a == b
}

#[tactic(auto, unfolding(crate::specs::Lines::is_blank))]
fn is_blank(b: u8) -> bool
    ensures { result ≡ is_blank b }
{
    (b == b' ') | (b == b'\t')
}

fn blanks(s: &[u8]) -> usize
    ensures { (result ≡ prefix_len is_blank s.now) × (result ≤ length s.now) }
{
    s.iter().take_while(|b| is_blank(**b)).count()
}

// blanks but for `!`: both chains in `word` leave its goal open, and a closure's clause would be longer than the two.
fn letters(s: &[u8]) -> usize
    ensures { (result ≡ prefix_len is_letter s.now) × (result ≤ length s.now) }
{
    s.iter().take_while(|b| !is_blank(**b)).count()
}

// The next word from `at` on.
#[tactic(auto, using(words::proofs::PartLaws::tail_all))]
pub fn word(s: &[u8], at: usize) -> Span
    requires { at ≤ length s.now }
    ensures { (result ≡ word_at s.now at) × (result.to ≤ length s.now) }
{
    let from = at + blanks(&s[at..]);
    let to = from + letters(&s[from..]);
    Span { from, to }
}

// 1 where there is a word.
#[tactic(auto, unfolding(crate::specs::Lines::one_if, words::specs::Choice::when))]
fn one_if(w: Span) -> usize
    ensures { (result ≡ one_if w) × (result ≤ 1) }
{
    usize::from(w.from < w.to)
}

// A line's first word, the three behind it, and how many there are behind the first; 4 stands for more than three.
#[derive(Clone, Copy)]
pub struct Words {
    pub name: Span,
    pub one: Span,
    pub two: Span,
    pub three: Span,
    pub count: usize,
}

pub fn words_in(s: &[u8]) -> Words
    ensures { (result ≡ words_in s.now) × (result.name.to ≤ length s.now) × (result.one.to ≤ length s.now) × (result.two.to ≤ length s.now) × (result.three.to ≤ length s.now) }
{
    let name = word(s, 0);
    let one = word(s, name.to);
    let two = word(s, one.to);
    let three = word(s, two.to);
    let more = word(s, three.to);
    let count = one_if(one) + one_if(two) + one_if(three) + one_if(more);
    Words {
        name,
        one,
        two,
        three,
        count,
    }
}

// The length of a line without a carriage return at its end.
#[tactic(auto, using(crate::proofs::LineLaws::end_none, crate::proofs::LineLaws::end_cut, crate::proofs::LineLaws::end_whole))]
pub fn end_of(s: &[u8]) -> usize
    ensures { (result ≡ end_of s.now) × (result ≤ length s.now) }
{
    match s {
        [.., b'\r'] => s.len() - 1,
        _ => s.len(),
    }
}

// The length of what a line says before a comment or its end.
pub fn said(s: &[u8]) -> usize
    ensures { (result ≡ said_in s.now) × (result ≤ length s.now) }
{
    s[..end_of(s)].iter().take_while(|b| **b != b'#').count()
}
