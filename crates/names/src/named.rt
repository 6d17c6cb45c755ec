// Names: where a list has one, and the last value that lines give to one.
ghost use Rattle.std.specs.Prelude.{◌≡◌, ℕ, List, map};
ghost use Rattle.std.specs.Str.{bytes_eq};
ghost use Rattle.cursor.specs.Told.{maybe};
ghost use Rattle.parts.specs.Parts.{entry_of};
ghost use Rattle.names.specs.Named.{place_from_on, last_of};

use graph::{File, Pool};
use parts::Binding;
use text::Declared;

// What a list finds by its name.
pub trait Named {
    ghost named: { Self → List ℕ };

    fn name(&self) -> &[u8]
        ensures { result.now ≡ named self.now };
}

impl<'a> Named for Declared<'a> {
    ghost named = { λ d. d.name.now };

    fn name(&self) -> &[u8] {
        self.name
    }
}

impl Named for Pool {
    ghost named = { λ p. p.name.items };

    fn name(&self) -> &[u8] {
        &self.name
    }
}

impl Named for File {
    ghost named = { λ f. f.path.items };

    fn name(&self) -> &[u8] {
        &self.path
    }
}

// Whether two names are the same. Paths of one length begin alike more often than they end alike, so the ends are looked at first.
fn same(a: &[u8], b: &[u8]) -> bool
    ensures { result ≡ bytes_eq a.now b.now }
{
    a.len() == b.len() && a.last() == b.last() && a == b
}

// The place of the first element of the name.
pub fn place_of<T: Named>(all: &[T], name: &[u8]) -> Option<usize>
    ensures { result ≡ place_from_on T.named 0 all.now name.now }
{
    all.iter().position(|x| same(x.name(), name))
}

// The last value that lines give to a name.
pub fn last_value<'a>(lines: &[Binding<'a>], name: &[u8]) -> Option<&'a [u8]>
    ensures { maybe (λ x. x.now) result ≡ last_of (map entry_of lines.now) name.now }
{
    lines
        .iter()
        .rev()
        .find(|b| same(b.name, name))
        .map(|b| b.value)
}
