// The calls of the text store.
ghost use Rattle.std.specs.Prelude.{◌≡◌, [], ◌++◌, length, take, drop, is_ok, IfOk, if◌then◌else◌};
ghost use Rattle.store.specs.Stores.{used_of, bytes_of, stored};
ghost use Rattle.store.specs.Try.{tried};

use crate::store::Store;
use crate::wrong::Wrong;
use std::alloc::{AllocError, Global};

// How many bytes the store has.
const SIZE: usize = 32768;

impl Store {
    // A store of which nothing is used.
    pub fn new(heap: Global) -> Result<Store, AllocError>
        ensures { IfOk result (λ s. used_of s ≡ []) }
    {
        let bytes = vec![in heap; 0; SIZE]?;
        Ok(Store { bytes, used: 0 })
    }

    // Writes zeros over all bytes, and leaves nothing used.
    pub fn clear(&mut self)
        ensures { used_of self.new ≡ [] }
    {
        self.bytes.fill(0);
        self.used = 0;
    }

    // All bytes, the used ones first.
    pub fn bytes(&self) -> &[u8]
        ensures { result.now ≡ bytes_of self.now }
    {
        &self.bytes
    }

    // How many bytes are used.
    pub fn used(&self) -> usize
        ensures { result ≡ length (used_of self.now) }
    {
        self.used
    }

    // Puts a text behind the used bytes. A refused call leaves the store as it was.
    pub fn add(&mut self, text: &[u8]) -> Result<(), Wrong>
        ensures says { tried (λ _. used_of self.new) result ≡ stored (used_of self.old) text.now }
        ensures after { used_of self.new ≡ (if is_ok result then used_of self.old ++ text.now else used_of self.old) }
    {
        let end = self.used + text.len();
        if end > SIZE {
            return Err(Wrong::Limit);
        }
        self.bytes[self.used..end].copy_from_slice(text);
        self.used = end;
        Ok(())
    }

    // At most so many of the used bytes, from a place on.
    pub fn part(&self, from: usize, len: usize) -> &[u8]
        ensures { result.now ≡ take len (drop from (used_of self.now)) }
    {
        let rest = past(&self.bytes[..self.used], from);
        &rest[..len.min(rest.len())]
    }
}

// The bytes without the first n.
pub fn past(s: &[u8], n: usize) -> &[u8]
    ensures { result.now ≡ drop n s.now }
{
    s.get(n..).unwrap_or_default()
}
