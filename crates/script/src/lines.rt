// The lines of a script, and the words of a line.
ghost use Rattle.std.specs.Prelude.{◌≡◌, ℕ, ◌<◌, ◌==◌, not, List, [], ◌∷◌, length, take, drop, IfSome, MatchOption};
ghost use Rattle.std.specs.List.{position, position_or_len};
ghost use Rattle.std.specs.Iterator.{at_most};
ghost use Rattle.script.specs.Texts.{words_of, lines_of};

use std::marker::PhantomData;

// What a text falls into, one behind another.
pub trait Part {
    ghost parts: { List ℕ → List (List ℕ) };

    // The first part, and what is left behind it; none where no part is left.
    fn first(text: &[u8]) -> Option<(&[u8], &[u8])>
        ensures first { MatchOption result (parts text.now ≡ []) (λ p. parts text.now ≡ p.0.now ∷ parts p.1.now) }
        ensures shorter { IfSome result (λ p. length p.1.now < length text.now) };
}

// The parts of a text that are still to come. The `split` of a slice has an empty part behind the last line end, where no line is.
#[derive(Drop)]
pub struct Parts<'a, P> {
    rest: &'a [u8],
    part: PhantomData<P>,
}

// The lines of some bytes, without their line ends; a last line needs none.
pub type Lines<'a> = Parts<'a, Line>;

// The words of a line: what runs of spaces part.
pub type Words<'a> = Parts<'a, Word>;

pub struct Line;

pub struct Word;

impl<'a, P> Parts<'a, P> {
    pub fn new(text: &'a [u8]) -> Parts<'a, P>
        ensures { result.rest.now ≡ text.now }
    {
        Parts {
            rest: text,
            part: PhantomData,
        }
    }
}

impl<'a, P: Part> Iterator for Parts<'a, P> {
    type Item = &'a [u8];

    ghost next_gives = { λ s r t. MatchOption r (P.parts s.rest.now ≡ []) (λ p. P.parts s.rest.now ≡ p.now ∷ P.parts t.rest.now) };

    ghost remaining = { λ s. at_most (length s.rest.now) };

    fn next(&mut self) -> Option<&'a [u8]> {
        let (part, rest) = P::first(self.rest)?;
        self.rest = rest;
        Some(part)
    }
}

impl Part for Line {
    ghost parts = { lines_of };

    #[tactic(auto, using(crate::proofs::Parts::first_line, std::proofs::lemmas::Grind::common_steps))]
    fn first(script: &[u8]) -> Option<(&[u8], &[u8])> {
        if script.is_empty() {
            return None;
        }
        match cut_before(script, b'\n') {
            (line, [_, rest @ ..]) => Some((line, rest)),
            last => Some(last),
        }
    }
}

impl Part for Word {
    ghost parts = { words_of };

    fn first(line: &[u8]) -> Option<(&[u8], &[u8])> {
        first_word(line)
    }
}

// The first word, and what is left behind it. Beside `first`, since it is proved by hand: an edit of it would have its first error in proofs/.
#[tactic(auto, using(crate::proofs::Parts::no_word))]
fn first_word(line: &[u8]) -> Option<(&[u8], &[u8])>
    ensures first { MatchOption result (words_of line.now ≡ []) (λ p. words_of line.now ≡ p.0.now ∷ words_of p.1.now) }
    ensures shorter { IfSome result (λ p. length p.1.now < length line.now) }
{
    let start = start_of_word(line)?;
    Some(cut_before(&line[start..], b' '))
}

// The bytes before the first such byte, and those from it on.
fn cut_before(bytes: &[u8], byte: u8) -> (&[u8], &[u8])
    ensures before { result.0.now ≡ take (position_or_len (λ b. b == byte) bytes.now) bytes.now }
    ensures from { result.1.now ≡ drop (position_or_len (λ b. b == byte) bytes.now) bytes.now }
{
    bytes.split_at(place_of(bytes, byte).unwrap_or(bytes.len()))
}

fn place_of(bytes: &[u8], byte: u8) -> Option<usize>
    ensures { result ≡ position (λ b. b == byte) bytes.now }
{
    bytes.iter().position(|b| *b == byte)
}

// The place of the first byte that is no space.
fn start_of_word(line: &[u8]) -> Option<usize>
    ensures { result ≡ position (λ b. not (b == 32)) line.now }
{
    line.iter().position(|b| *b != b' ')
}
