// Variables that are set, in a block or in the file, and the lines around them.
ghost use Rattle.std.specs.Prelude.{◌≡◌, [], map};
ghost use Rattle.cursor.specs.Scan.{told};
ghost use Rattle.parts.specs.Parts.{Tells, entry_of, set_to, takes, setting, block_turn, turn_in, block, skip_turn, skipped, passed};

use crate::kinds::{Binding, Block};
use crate::refusal::Refusal;
use byteclass::{in_pool, in_rule};
use cursor::{Cursor, Fault, Lead, Opens, Place};
use std::alloc::Global;

// What a line means for the block that is open. No Option says all three.
#[derive(Clone, Copy)]
pub enum Line<'a> {
    // the block ends before the line, or with it
    Last,
    // a comment
    Skip,
    Sets(Binding<'a>),
}

impl Block {
    // Whether the block takes a variable of this name.
    pub fn takes(self, name: &[u8]) -> bool
        ensures { result ≡ takes self name.now }
    {
        match self {
            Block::Rule => in_rule(name),
            Block::Pool => in_pool(name),
            Block::Build => true,
        }
    }
}

// Reads what follows a name in NAME = VALUE, with the line's end.
pub fn set_to<'a>(name: &'a [u8], c: &mut Cursor<'a>) -> Result<Binding<'a>, Fault>
    ensures { told entry_of result c.new ≡ set_to name.now c.old.at c.old.rest.now }
{
    c.skip_gap();
    c.expect(b'=', Opens::Gap)?;
    c.skip_gap();
    let value = c.value()?;
    c.expect(b'\n', Opens::Nothing)?;
    Ok(Binding { name, value })
}

// Reads a line of a block after its first spaces.
fn setting<'a>(block: Block, c: &mut Cursor<'a>) -> Result<Binding<'a>, Fault>
    ensures { told entry_of result c.new ≡ setting block c.old.at c.old.rest.now }
{
    c.skip_gap();
    let at = c.at;
    let name = c.name(Opens::Gap)?;
    if !block.takes(name) {
        return Err(Fault::LeftOut(Place { byte: at }));
    }
    set_to(name, c)
}

// Reads the next line of a block.
fn block_line<'a>(block: Block, c: &mut Cursor<'a>) -> Result<Line<'a>, Fault>
    ensures { told turn_in result c.new ≡ block_turn block c.old.at c.old.rest.now }
{
    match c.lead()? {
        Lead::Ends | Lead::Blank | Lead::Flush => Ok(Line::Last),
        Lead::Remark => Ok(Line::Skip),
        Lead::Indented => Ok(Line::Sets(setting(block, c)?)),
    }
}

// Reads a block: its lines in order.
pub fn block<'a>(heap: Global, kind: Block, c: &mut Cursor<'a>) -> Result<Vec<Binding<'a>>, Refusal>
    ensures { Tells (λ v. map entry_of v.items) result c.new (block kind c.old.at c.old.rest.now) }
{
    let mut all = Vec::new(heap);
    loop {
        match block_line(kind, c)? {
            Line::Last => return Ok(all),
            Line::Skip => {}
            Line::Sets(b) => all.push(b)?,
        }
    }
}

// Passes a line between statements, if it is nothing.
fn passes_line(c: &mut Cursor) -> Result<bool, Fault>
    ensures { told passed result c.new ≡ skip_turn c.old.at c.old.rest.now }
{
    match c.lead()? {
        Lead::Ends | Lead::Flush => Ok(false),
        Lead::Blank | Lead::Remark => Ok(true),
        Lead::Indented => Err(Fault::Syntax(Place { byte: c.at })),
    }
}

// Passes the lines before a statement, or before the end.
pub fn skip_lines(c: &mut Cursor) -> Result<(), Fault>
    ensures { told (λ _. []) result c.new ≡ skipped c.old.at c.old.rest.now }
{
    while passes_line(c)? {}
    Ok(())
}
