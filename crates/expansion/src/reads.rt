// The texts of a manifest, read one by one.
ghost use Rattle.std.specs.Prelude.{◌≡◌, ◌≤◌, length, IfOk};
ghost use Rattle.parts.specs.Parts.{entry_of};
ghost use Rattle.store.specs.Try.{got, Gives};
ghost use Rattle.store.specs.Stores.{used_of};
ghost use Rattle.store.specs.Held.{text_in, reach};
ghost use Rattle.expansion.specs.Model.{no_texts, set_file, set_block, read_depth, read_path, close_block, ask};
ghost use Rattle.expansion.specs.Meaning.{texts_of, read_of};

use crate::bind::bind_in;
use crate::texts::Texts;
use parts::Binding;
use std::alloc::{AllocError, Global};
use std::mem::replace;
use store::{Stop, Store, Text, Variable, Wrong};
use values::keep::{keep, put};
use values::limits::Limits;
use values::scope::Lists;

// The length of a value, and of a question.
pub(crate) const VALUE: Limits = Limits {
    least: 0,
    most: 1024,
};

const PATH: Limits = Limits {
    least: 1,
    most: 128,
};

// How many names the file may set, and a block.
const FILE_NAMES: usize = 128;

const BLOCK_NAMES: usize = 16;

impl<'a> Texts<'a> {
    // Nothing is read yet.
    pub fn new(heap: Global) -> Result<Texts<'a>, AllocError>
        ensures says { IfOk result (λ t. texts_of t ≡ no_texts) }
    {
        let store = Store::new(heap)?;
        Ok(Texts {
            store,
            file: Vec::new(heap),
            block: Vec::new(heap),
            closed: Vec::new(heap),
            scratch: Vec::new(heap),
        })
    }

    // Reads a value that sees the variables of the file alone.
    fn read_value(&mut self, v: &'a [u8]) -> Result<Text<'a>, Stop>
        ensures says { Gives (λ t. read_of self.new t) result (read_depth (texts_of self.old) v.now) }
        ensures lies { IfOk result (λ t. reach t ≤ length (used_of self.new.store)) }
    {
        let lists = Lists::of_file(&self.file);
        keep(&mut self.store, &mut self.scratch, lists, VALUE, v)
    }

    // Sets a variable of the file.
    pub fn set_file(&mut self, b: Binding<'a>) -> Result<(), Stop>
        ensures says { Gives (λ _. texts_of self.new) result (set_file (texts_of self.old) (entry_of b.entry)) }
    {
        let value = self.read_value(b.value)?;
        let name = b.name;
        bind_in(&mut self.file, FILE_NAMES, Variable { name, value })
    }

    // Sets a variable of the open block. One function for the file and the block would borrow a list of `self` beside `self`.
    pub fn set_block(&mut self, b: Binding<'a>) -> Result<(), Stop>
        ensures says { Gives (λ _. texts_of self.new) result (set_block (texts_of self.old) (entry_of b.entry)) }
    {
        let value = self.read_value(b.value)?;
        let name = b.name;
        bind_in(&mut self.block, BLOCK_NAMES, Variable { name, value })
    }

    // Reads the value of a depth line.
    pub fn read_depth(&mut self, v: &'a [u8]) -> Result<Text<'a>, Stop>
        ensures says { Gives (λ t. read_of self.new t) result (read_depth (texts_of self.old) v.now) }
    {
        self.read_value(v)
    }

    // Reads a path of a build statement, which sees the open block too.
    pub fn read_path(&mut self, v: &'a [u8]) -> Result<Text<'a>, Stop>
        ensures says { Gives (λ t. read_of self.new t) result (read_path (texts_of self.old) v.now) }
    {
        let lists = Lists::of_block(&self.block, &self.file);
        keep(&mut self.store, &mut self.scratch, lists, PATH, v)
    }

    // Closes the open block, as that of the next edge.
    pub fn close_block(&mut self) -> Result<(), Stop>
        ensures says { Gives (λ _. texts_of self.new) result (got (close_block (texts_of self.old))) }
    {
        let none = Vec::new(*self.block.allocator());
        let block = replace(&mut self.block, none);
        self.closed.push(block)?;
        Ok(())
    }

    // Puts the question of an edge into the store.
    pub fn ask(&mut self, question: &[u8]) -> Result<(), Stop>
        ensures says { Gives (λ _. texts_of self.new) result (ask (texts_of self.old) question.now) }
    {
        if !VALUE.allow(question.len()) {
            return Err(Stop::Because(Wrong::Limit));
        }
        put(&mut self.store, question)?;
        Ok(())
    }

    // The bytes of a text.
    pub fn text<'b>(&'b self, t: Text<'b>) -> &'b [u8]
        ensures { result.now ≡ text_in (texts_of self.now).store t.entry }
    {
        self.store.text(t)
    }

    // The store alone.
    pub fn into_store(self) -> Store
        ensures { used_of result ≡ (texts_of self.entry).store }
    {
        self.store
    }
}
