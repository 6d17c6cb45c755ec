// Paths, the lists that they stand in, and the marks between the lists.
ghost use Rattle.std.specs.Prelude.{◌≡◌, ◌≤◌, false, length, take_while};
ghost use Rattle.cursor.specs.Scan.{told, ok, walk, wraps, path, next_path, first_path, bar, pair};
ghost use Rattle.cursor.specs.Told.{maybe};
ghost use Rattle.cursor.specs.Runs.{inner};

use crate::place::{Cursor, Fault, Place};
use crate::scan::is_escaped;

// Whether a byte neither ends a path nor begins an escape.
fn is_inner(b: u8) -> bool
    ensures { result ≡ inner b }
{
    !matches!(b, b' ' | b':' | b'|' | b'\n' | b'$')
}

// How many such bytes stand at the front.
fn inner_len(s: &[u8]) -> usize
    ensures { result ≡ length (take_while inner s.now) }
{
    s.iter().take_while(|b| is_inner(**b)).count()
}

// Whether what stands after a `$` makes a continuation of it.
fn is_wrap(tail: &[u8]) -> bool
    ensures { result ≡ wraps tail.now }
{
    matches!(tail, [b'\n', ..])
}

impl<'a> Cursor<'a> {
    // Passes bytes that a path takes as they are.
    fn skip_inner(&mut self)
        ensures run { walk false self.new.at self.new.rest.now ≡ walk false self.old.at self.old.rest.now }
        ensures less { length self.new.rest.now ≤ length self.old.rest.now }
    {
        let n = inner_len(self.rest);
        self.advance(n);
    }

    // Reads a path, up to what ends it. After a line end that a `$` takes back, spaces are nothing.
    fn path(&mut self) -> Result<&'a [u8], Fault>
        ensures { told (λ x. x.now) result self.new ≡ path self.old.at self.old.rest.now }
    {
        let start = self.rest;
        let mut wrapped = false;
        loop {
            match self.rest {
                [] => return Err(Fault::Syntax(Place { byte: self.at })),
                [b' ', ..] => {
                    if !wrapped {
                        return Ok(&start[..start.len() - self.rest.len()]);
                    }
                    self.advance(1);
                }
                [b':' | b'|' | b'\n', ..] => return Ok(&start[..start.len() - self.rest.len()]),
                [b'$', tail @ ..] => {
                    if !is_escaped(tail) {
                        return Err(Fault::Dollar(Place { byte: self.at }));
                    }
                    wrapped = is_wrap(tail);
                    self.advance(2);
                }
                _ => {
                    wrapped = false;
                    self.advance(1);
                    self.skip_inner();
                }
            }
        }
    }

    // Reads the next path of a list, if there is one.
    pub fn next_path(&mut self) -> Result<Option<&'a [u8]>, Fault>
        ensures { told (maybe (λ x. x.now)) result self.new ≡ next_path self.old.at self.old.rest.now }
    {
        self.skip_gap();
        match self.rest {
            [] | [b' ' | b':' | b'|' | b'\n', ..] => Ok(None),
            _ => self.path().map(Some),
        }
    }

    // Reads the first path of a list that may not be empty.
    pub fn first_path(&mut self) -> Result<&'a [u8], Fault>
        ensures { told (λ x. x.now) result self.new ≡ first_path self.old.at self.old.rest.now }
    {
        self.next_path()?
            .ok_or(Fault::Syntax(Place { byte: self.at }))
    }

    // Passes the mark `|` if it stands here; marks are read longest first.
    pub fn bar(&mut self) -> bool
        ensures { ok result self.new.at self.new.rest.now ≡ bar self.old.at self.old.rest.now }
    {
        match self.rest {
            [b'|', b'|' | b'@', ..] => false,
            [b'|', ..] => {
                self.advance(1);
                true
            }
            _ => false,
        }
    }

    // Passes the mark of `|` and the byte k if it stands here.
    pub fn pair(&mut self, k: u8) -> bool
        ensures { ok result self.new.at self.new.rest.now ≡ pair k self.old.at self.old.rest.now }
    {
        let stands = self.rest.starts_with(&[b'|', k]);
        if stands {
            self.advance(2);
        }
        stands
    }
}
