// The public calls: a text is opened, and read statement by statement or all at once.
ghost use Rattle.std.specs.Prelude.{◌≡◌, ◌≤◌, map, length, take, position};
ghost use Rattle.byteclass.specs.Class.{banned_byte};
ghost use Rattle.cursor.specs.Told.{maybe};
ghost use Rattle.parts.specs.Parts.{Tells};
ghost use Rattle.text.specs.Grammar.{Admits, Placed};
ghost use Rattle.text.specs.Text.{checked, refused_by, next, stated_of, statements, manifest_of, Answers, Kept};

use crate::kinds::Statement;
use crate::statement::read_next;
use byteclass::is_banned;
use cursor::fault::LIMIT;
use cursor::{Cursor, Fault, Place};
use parts::Refusal;
use std::alloc::Global;

// How many bytes stand before the first that no manifest may hold.
fn first_banned(text: &[u8]) -> Option<usize>
    ensures { result ≡ position banned_byte text.now }
{
    text.iter().position(|b| is_banned(*b))
}

// Looks for the faults that come before any other, over all bytes.
#[tactic(auto, using(crate::proofs::Banned::banned_found, crate::proofs::Banned::banned_none))]
pub fn check(text: &[u8]) -> Result<(), Fault>
    ensures { refused_by result ≡ checked text.now }
{
    if text.len() > LIMIT {
        return Err(Fault::TooLong);
    }
    if let Some(byte) = first_banned(text) {
        return Err(Fault::Banned(Place { byte }));
    }
    Ok(())
}

// As much of a text as a manifest may have. With `..LIMIT`, and with `get`, the proof counts up to the limit and does not end.
fn at_most(text: &[u8]) -> &[u8]
    ensures is { result.now ≡ take 65535 text.now }
    ensures short { length result.now ≤ 65535 }
{
    if text.len() > LIMIT {
        return &text[0..LIMIT];
    }
    text
}

// A reader at the first byte of a text, of which it reads no more than a manifest may have.
pub fn start(text: &[u8]) -> Cursor<'_>
    ensures at { result.at ≡ 0 }
    ensures rest { result.rest.now ≡ take 65535 text.now }
{
    let rest = at_most(text);
    Cursor { rest, at: 0 }
}

// The next statement, if there is one, from the start of a line. A refused call leaves the reader as it was.
pub fn next<'a>(heap: Global, c: &mut Cursor<'a>) -> Result<Option<Statement<'a>>, Refusal>
    ensures says { Tells (maybe stated_of) result c.new (next c.old.at c.old.rest.now) }
    ensures kept { Kept result c.old c.new }
{
    let mut ahead = *c;
    let answer = read_next(heap, &mut ahead)?;
    *c = ahead;
    Ok(answer)
}

// Reads statements up to the end.
fn all_statements<'a>(heap: Global, c: &mut Cursor<'a>) -> Result<Vec<Statement<'a>>, Refusal>
    ensures { Tells (λ v. map stated_of v.items) result c.new (statements c.old.at c.old.rest.now) }
{
    let mut all = Vec::new(heap);
    while let Some(x) = read_next(heap, c)? {
        all.push(x)?;
    }
    Ok(all)
}

// All statements of a text, or its first fault.
fn whole<'a>(heap: Global, text: &'a [u8]) -> Result<Vec<Statement<'a>>, Refusal>
    ensures { Answers result (manifest_of text.now) }
{
    check(text)?;
    all_statements(heap, &mut start(text))
}

// All statements of a text: those, and only those, that the grammar gives it.
#[tactic(auto, using(crate::proofs::Law::admits, crate::proofs::Place::placed))]
pub fn manifest<'a>(heap: Global, text: &'a [u8]) -> Result<Vec<Statement<'a>>, Refusal>
    ensures says { Answers result (manifest_of text.now) }
    ensures admits { Admits result text.now }
    ensures placed { Placed result text.now }
{
    whole(heap, text)
}
