// Statements, read from their first byte to the end of their block.
ghost use Rattle.cursor.specs.Told.{maybe};
ghost use Rattle.parts.specs.Parts.{Tells};
ghost use Rattle.text.specs.Text.{declared, head_of, edge, work_of, statement, said_of, at_start, next, stated_of};

use crate::kinds::{Body, Declared, Edge, Statement};
use byteclass::{Word, word_at};
use cursor::{Cursor, Fault, Opens, Place};
use parts::blocks::{block, set_to, skip_lines};
use parts::lists::{inputs, outputs};
use parts::{Block, Refusal};
use std::alloc::Global;

// Reads what follows `rule` or `pool`.
fn declared<'a>(heap: Global, kind: Block, c: &mut Cursor<'a>) -> Result<Declared<'a>, Refusal>
    ensures { Tells head_of result c.new (declared kind c.old.at c.old.rest.now) }
{
    c.skip_gap();
    let name = c.name(Opens::Gap)?;
    c.skip_gap();
    c.expect(b'\n', Opens::Gap)?;
    let lines = block(heap, kind, c)?;
    Ok(Declared { name, lines })
}

// Reads what follows `build`.
fn edge<'a>(heap: Global, c: &mut Cursor<'a>) -> Result<Edge<'a>, Refusal>
    ensures { Tells work_of result c.new (edge c.old.at c.old.rest.now) }
{
    let outputs = outputs(heap, c)?;
    c.skip_gap();
    let rule = c.name(Opens::Gap)?;
    let inputs = inputs(heap, c)?;
    let lines = block(heap, Block::Build, c)?;
    Ok(Edge {
        outputs,
        rule,
        inputs,
        lines,
    })
}

// Reads a statement, which begins in the first column with a word or a variable's name.
fn statement<'a>(heap: Global, c: &mut Cursor<'a>) -> Result<Body<'a>, Refusal>
    ensures { Tells said_of result c.new (statement c.old.at c.old.rest.now) }
{
    let at = c.at;
    let name = c.name(Opens::Nothing)?;
    match word_at(name) {
        Word::Plain => Ok(Body::Variable(set_to(name, c)?)),
        Word::Rule => Ok(Body::Rule(declared(heap, Block::Rule, c)?)),
        Word::Pool => Ok(Body::Pool(declared(heap, Block::Pool, c)?)),
        Word::Build => Ok(Body::Build(edge(heap, c)?)),
        Word::LeftOut => Err(Refusal::Faulty(Fault::LeftOut(Place { byte: at }))),
    }
}

// Reads a statement, unless the manifest ends here.
fn at_start<'a>(heap: Global, c: &mut Cursor<'a>) -> Result<Option<Statement<'a>>, Refusal>
    ensures { Tells (maybe stated_of) result c.new (at_start c.old.at c.old.rest.now) }
{
    if c.rest.is_empty() {
        return Ok(None);
    }
    let place = Place { byte: c.at };
    let body = statement(heap, c)?;
    Ok(Some(Statement { place, body }))
}

// Reads the next statement, if there is one, from the start of a line.
pub(crate) fn read_next<'a>(
    heap: Global,
    c: &mut Cursor<'a>,
) -> Result<Option<Statement<'a>>, Refusal>
    ensures { Tells (maybe stated_of) result c.new (next c.old.at c.old.rest.now) }
{
    skip_lines(c)?;
    at_start(heap, c)
}
