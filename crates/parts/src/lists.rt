// Lists of paths, as they stand in a build statement.
ghost use Rattle.std.specs.Prelude.{◌≡◌, []};
ghost use Rattle.parts.specs.Parts.{Tells, paths, paths_of, some_paths, list_if, open_after, outputs, outs_of, inputs, ins_of};

use crate::kinds::{Inputs, Outputs};
use crate::refusal::Refusal;
use cursor::{Cursor, Opens};
use std::alloc::Global;

// Reads the rest of a list, and puts its paths after those that are there.
fn more_paths<'a>(all: &mut Vec<&'a [u8]>, c: &mut Cursor<'a>) -> Result<(), Refusal>
    ensures { Tells (λ _. paths_of all.new) result c.new (paths (paths_of all.old) c.old.at c.old.rest.now) }
{
    while let Some(p) = c.next_path()? {
        all.push(p)?;
    }
    Ok(())
}

// Reads a list that may be empty.
fn any_paths<'a>(heap: Global, c: &mut Cursor<'a>) -> Result<Vec<&'a [u8]>, Refusal>
    ensures { Tells paths_of result c.new (paths [] c.old.at c.old.rest.now) }
{
    let mut all = Vec::new(heap);
    more_paths(&mut all, c)?;
    Ok(all)
}

// Reads a list with at least one path.
fn some_paths<'a>(heap: Global, c: &mut Cursor<'a>) -> Result<Vec<&'a [u8]>, Refusal>
    ensures { Tells paths_of result c.new (some_paths c.old.at c.old.rest.now) }
{
    let first = c.first_path()?;
    let mut all = Vec::new(heap);
    all.push(first)?;
    more_paths(&mut all, c)?;
    Ok(all)
}

// Reads a list if its mark stood before it.
fn list_if<'a>(heap: Global, marked: bool, c: &mut Cursor<'a>) -> Result<Vec<&'a [u8]>, Refusal>
    ensures { Tells paths_of result c.new (list_if marked c.old.at c.old.rest.now) }
{
    if marked {
        return any_paths(heap, c);
    }
    Ok(Vec::new(heap))
}

// Whether a longer mark could still follow the lists that were read.
fn open_after(marked: bool) -> Opens
    ensures { result ≡ open_after marked }
{
    if marked { Opens::Nothing } else { Opens::Mark }
}

// Reads the outputs of a build statement, up to the rule's name.
pub fn outputs<'a>(heap: Global, c: &mut Cursor<'a>) -> Result<Outputs<'a>, Refusal>
    ensures { Tells outs_of result c.new (outputs c.old.at c.old.rest.now) }
{
    let explicit = some_paths(heap, c)?;
    let marked = c.bar();
    let implicit = list_if(heap, marked, c)?;
    c.expect(b':', open_after(marked))?;
    Ok(Outputs { explicit, implicit })
}

// Reads the inputs of a build statement, with the line's end.
pub fn inputs<'a>(heap: Global, c: &mut Cursor<'a>) -> Result<Inputs<'a>, Refusal>
    ensures { Tells ins_of result c.new (inputs c.old.at c.old.rest.now) }
{
    let explicit = any_paths(heap, c)?;
    let marked = c.bar();
    let implicit = list_if(heap, marked, c)?;
    let ordered = c.pair(b'|');
    let order_only = list_if(heap, ordered, c)?;
    let checked = c.pair(b'@');
    let validations = list_if(heap, checked, c)?;
    c.expect(b'\n', open_after(checked))?;
    Ok(Inputs {
        explicit,
        implicit,
        order_only,
        validations,
    })
}
