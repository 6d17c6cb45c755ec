// The texts of a manifest as far as it is read. Each part of the store that a variable holds lies within its used bytes.
ghost use Rattle.std.specs.Prelude.{◌≤◌, length};
ghost use Rattle.store.specs.Stores.{used_of};
ghost use Rattle.store.specs.Held.{furthest, furthest_in};

use store::{Store, Variable};

#[derive(Drop)]
pub struct Texts<'a> {
    pub(crate) store: Store,
    pub(crate) file: Vec<Variable<'a>>,
    pub(crate) block: Vec<Variable<'a>>,
    // the block of each edge, by the edge's number: the edges themselves lie in the graph, which knows nothing of variables
    pub(crate) closed: Vec<Vec<Variable<'a>>>,
    pub(crate) scratch: Vec<u8>,
    ghost file_lies: { furthest file.items ≤ length (used_of store) },
    ghost block_lies: { furthest block.items ≤ length (used_of store) },
    ghost closed_lie: { furthest_in closed.items ≤ length (used_of store) },
}
