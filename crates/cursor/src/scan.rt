// Gaps, names, single bytes and values.
ghost use Rattle.std.specs.Prelude.{◌≡◌, ◌+◌, ◌≤◌, length, drop, take_while};
ghost use Rattle.byteclass.specs.Class.{name_byte};
ghost use Rattle.cursor.specs.Scan.{told, ok, opens, lack, spaces, gap, name, byte, braced, escaped, value};

use crate::place::{Cursor, Fault, Opens, Place};
use byteclass::{is_name, is_simple};

impl Opens {
    // Whether the byte could begin what is open.
    pub fn by(self, b: u8) -> bool
        ensures { result ≡ opens self b }
    {
        match self {
            Opens::Nothing => false,
            Opens::Gap => b == b'$',
            Opens::Mark => b == b'|',
        }
    }
}

// How many name bytes stand at the front.
fn name_len(s: &[u8]) -> usize
    ensures { result ≡ length (take_while name_byte s.now) }
{
    s.iter().take_while(|b| is_name(**b)).count()
}

// Whether a name stands here with a `}` after it.
#[tactic(auto, using(crate::proofs::Steps::name_count))]
fn is_braced(s: &[u8]) -> bool
    ensures { result ≡ braced s.now }
{
    let n = name_len(s);
    n > 0 && s.get(n) == Some(&b'}')
}

// Whether what stands after a `$` makes an escape of it.
pub(crate) fn is_escaped(s: &[u8]) -> bool
    ensures { result ≡ escaped s.now }
{
    match s {
        [b'\n' | b' ' | b':' | b'$', ..] => true,
        [b'{', name @ ..] => is_braced(name),
        [c, ..] => is_simple(*c),
        [] => false,
    }
}

impl<'a> Cursor<'a> {
    // Passes n bytes: the only method that writes the fields.
    pub(crate) fn advance(&mut self, n: usize)
        requires { n ≤ length self.old.rest.now }
        ensures at { self.new.at ≡ self.old.at + n }
        ensures rest { self.new.rest.now ≡ drop n self.old.rest.now }
    {
        self.rest = &self.rest[n..];
        self.at += n;
    }

    // The fault where what is expected does not stand here.
    pub fn lack(&self, other: Opens) -> Fault
        ensures { result ≡ lack other self.now.at self.now.rest.now }
    {
        let opened = self.rest.first().is_some_and(|b| other.by(*b));
        let byte = if opened { self.at + 1 } else { self.at };
        Fault::Syntax(Place { byte })
    }

    // Passes spaces. A chain that counts them would need a function of its own for its contract.
    pub(crate) fn skip_spaces(&mut self)
        ensures { ok tt self.new.at self.new.rest.now ≡ spaces self.old.at self.old.rest.now }
    {
        while let [b' ', ..] = self.rest {
            self.advance(1);
        }
    }

    // Passes spaces, and line ends after a `$`.
    #[tactic(auto, using(crate::proofs::Steps::gap_space, crate::proofs::Steps::gap_wrap))]
    pub fn skip_gap(&mut self)
        ensures { ok tt self.new.at self.new.rest.now ≡ gap self.old.at self.old.rest.now }
    {
        loop {
            match self.rest {
                [b' ', ..] => self.advance(1),
                [b'$', b'\n', ..] => self.advance(2),
                _ => return,
            }
        }
    }

    // Reads a name, as long as it goes.
    pub fn name(&mut self, other: Opens) -> Result<&'a [u8], Fault>
        ensures { told (λ x. x.now) result self.new ≡ name other self.old.at self.old.rest.now }
    {
        let start = self.rest;
        let n = name_len(start);
        if n == 0 {
            return Err(self.lack(other));
        }
        self.advance(n);
        Ok(&start[..n])
    }

    // Passes the byte k, which has to stand here.
    pub fn expect(&mut self, k: u8, other: Opens) -> Result<(), Fault>
        ensures { told (λ u. u) result self.new ≡ byte k other self.old.at self.old.rest.now }
    {
        match self.rest {
            [b, ..] if *b == k => {
                self.advance(1);
                Ok(())
            }
            _ => Err(self.lack(other)),
        }
    }

    // Reads a value, up to the line's end, which is left.
    pub fn value(&mut self) -> Result<&'a [u8], Fault>
        ensures { told (λ x. x.now) result self.new ≡ value self.old.at self.old.rest.now }
    {
        let start = self.rest;
        loop {
            match self.rest {
                [] => return Err(Fault::Syntax(Place { byte: self.at })),
                [b'\n', ..] => return Ok(&start[..start.len() - self.rest.len()]),
                [b'$', tail @ ..] => {
                    if !is_escaped(tail) {
                        return Err(Fault::Dollar(Place { byte: self.at }));
                    }
                    self.advance(2);
                }
                _ => self.advance(1),
            }
        }
    }
}
