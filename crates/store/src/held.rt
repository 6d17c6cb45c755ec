// Texts of the manifest or of the store, and variables by their names.
ghost use Rattle.std.specs.Prelude.{◌≡◌, ◌<◌, length, IfSome};
ghost use Rattle.store.specs.Stores.{used_of};
ghost use Rattle.store.specs.Held.{text_in, place_from_on};

use crate::store::Store;
use crate::text::{Text, Variable};

impl Store {
    // The bytes of a text.
    pub fn text<'b>(&'b self, t: Text<'b>) -> &'b [u8]
        ensures { result.now ≡ text_in (used_of self.now) t.entry }
    {
        match t {
            Text::Manifest(s) => s,
            Text::Store { from, len } => self.part(from, len),
        }
    }
}

// The place of a variable among others. `names::place_of` does the same above this crate, for what has a name there.
pub fn place_of(vars: &[Variable], name: &[u8]) -> Option<usize>
    ensures is { result ≡ place_from_on 0 vars.now name.now }
    ensures below { IfSome result (λ i. i < length vars.now) }
{
    vars.iter().position(|v| v.name == name)
}
