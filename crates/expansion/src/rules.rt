// The variables of closed blocks, and the values of rules in their scopes.
ghost use Rattle.std.specs.Prelude.{◌≡◌, ℕ, List, [], slice_index_or};
ghost use Rattle.cursor.specs.Told.{maybe};
ghost use Rattle.store.specs.Try.{Gives};
ghost use Rattle.store.specs.Held.{entries_in, blocks_in};
ghost use Rattle.values.specs.Expand.{find};
ghost use Rattle.expansion.specs.Model.{rule_value};
ghost use Rattle.expansion.specs.Meaning.{texts_of};

use crate::reads::VALUE;
use crate::texts::Texts;
use store::{Stop, Text, Variable};
use values::expand::find;
use values::keep::expand_within;
use values::scope::{Lists, Names};

impl<'a> Texts<'a> {
    // The variables of an edge's block: none, if no block was closed for it.
    fn block_at(&self, e: usize) -> &[Variable<'a>]
        ensures { (u : List ℕ) → entries_in u result.now ≡ slice_index_or (blocks_in u self.now.closed.items) e [] }
    {
        self.closed.get(e).map(|b| b.as_slice()).unwrap_or_default()
    }

    // The text of a variable of an edge's block.
    pub fn block_value<'b>(&'b self, e: usize, name: &[u8]) -> Option<&'b [u8]>
        ensures { maybe (λ x. x.now) result ≡ find (slice_index_or (texts_of self.now).blocks e []) name.now }
    {
        find(&self.store, self.block_at(e), name)
    }

    // Leaves in `out` what a rule's value stands for at an edge, of whose paths the names `in` and `out` speak.
    pub fn rule_value<'b>(
        &'b self,
        e: usize,
        ins: &'b [u8],
        outs: &'b [u8],
        v: &'b [u8],
        out: &mut Vec<u8>,
    ) -> Result<(), Stop>
        ensures says { Gives (λ _. out.new.items) result (rule_value (texts_of self.now) e ins.now outs.now v.now) }
    {
        let special = [
            Variable {
                name: b"in",
                value: Text::Manifest(ins),
            },
            Variable {
                name: b"out",
                value: Text::Manifest(outs),
            },
        ];
        let lists = Lists {
            special: &special,
            block: self.block_at(e),
            file: &self.file,
        };
        let names = Names {
            store: &self.store,
            lists,
        };
        expand_within(names, VALUE, v, out)
    }
}
