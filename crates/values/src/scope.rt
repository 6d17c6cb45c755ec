// Where names are looked up.
ghost use Rattle.std.specs.Prelude.{◌≡◌, []};

use store::{Store, Variable};

// Three lists of variables, in the order in which a name is looked up.
#[derive(Clone, Copy)]
pub struct Lists<'b> {
    pub special: &'b [Variable<'b>],
    pub block: &'b [Variable<'b>],
    pub file: &'b [Variable<'b>],
}

impl<'b> Lists<'b> {
    // The variables of the file alone.
    pub fn of_file(file: &'b [Variable<'b>]) -> Lists<'b>
        ensures special { result.special.now ≡ [] }
        ensures block { result.block.now ≡ [] }
        ensures file { result.file.now ≡ file.now }
    {
        Lists {
            special: &[],
            block: &[],
            file,
        }
    }

    // The variables of a block and those of the file.
    pub fn of_block(block: &'b [Variable<'b>], file: &'b [Variable<'b>]) -> Lists<'b>
        ensures special { result.special.now ≡ [] }
        ensures block { result.block.now ≡ block.now }
        ensures file { result.file.now ≡ file.now }
    {
        Lists {
            special: &[],
            block,
            file,
        }
    }
}

// The lists, and the store with the texts of their variables.
#[derive(Clone, Copy)]
pub struct Names<'b> {
    pub store: &'b Store,
    pub lists: Lists<'b>,
}
