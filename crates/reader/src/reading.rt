// All statements of a manifest, each read whole and then looked at.
ghost use Rattle.text.specs.Text.{stated_of, checked};
ghost use Rattle.draft.specs.Drafts.{state_of};
ghost use Rattle.draft.specs.Statements.{add};
ghost use Rattle.reader.specs.Answers.{at};
ghost use Rattle.reader.specs.Reading.{read_rest, read_by};
ghost use Rattle.reader.specs.Told.{Tells};

use crate::edges::stopped;
use crate::fault::Refusal;
use cursor::Cursor;
use draft::Draft;
use std::alloc::Global;
use text::Statement;

// Adds a statement; a fault has its place.
fn add_at<'a>(heap: Global, d: &mut Draft<'a>, x: Statement<'a>) -> Result<(), Refusal>
    ensures { Tells (λ _. state_of d.new) result (at (stated_of x.entry).place (add (state_of d.old) (stated_of x.entry))) }
{
    let place = x.place;
    d.add(heap, x).map_err(|s| stopped(s, place))
}

// Reads and adds all statements that are left.
fn add_all<'a>(heap: Global, d: &mut Draft<'a>, c: &mut Cursor<'a>) -> Result<(), Refusal>
    ensures { Tells (λ _. state_of d.new) result (read_rest c.old.at c.old.rest.now (state_of d.old)) }
{
    while let Some(x) = text::next(heap, c)? {
        add_at(heap, d, x)?;
    }
    Ok(())
}

// Reads a whole text.
pub(crate) fn read<'a>(heap: Global, manifest: &'a [u8]) -> Result<Draft<'a>, Refusal>
    ensures { Tells state_of result (read_by (checked manifest.now) manifest.now) }
{
    text::check(manifest)?;
    let mut c = text::start(manifest);
    let mut d = Draft::new(heap)?;
    add_all(heap, &mut d, &mut c)?;
    Ok(d)
}
