// The lines of blocks: those of a build statement, and the depth lines of a pool.
ghost use Rattle.std.specs.Prelude.{[], map};
ghost use Rattle.expansion.specs.Meaning.{texts_of, read_of};
ghost use Rattle.expansion.specs.Model.{set_block};
ghost use Rattle.parts.specs.Parts.{entry_of};
ghost use Rattle.store.specs.Try.{Gives};
ghost use Rattle.lists.specs.Each.{each_try};
ghost use Rattle.draft.specs.Statements.{take_depth};

use expansion::Texts;
use parts::Binding;
use store::{Stop, Text};

// Sets the variables of the open block.
pub(crate) fn set_lines<'a>(texts: &mut Texts<'a>, lines: &[Binding<'a>]) -> Result<(), Stop>
    ensures { Gives (λ _. texts_of texts.new) result (each_try set_block (texts_of texts.old) (map entry_of lines.now)) }
{
    for b in lines {
        texts.set_block(*b)?;
    }
    Ok(())
}

// Reads depth lines; the text of the last one counts.
pub(crate) fn last_depth<'a>(texts: &mut Texts<'a>, lines: &[Binding<'a>]) -> Result<Text<'a>, Stop>
    ensures { Gives (read_of texts.new) result (each_try take_depth (record { text = []; texts = texts_of texts.old }) (map entry_of lines.now)) }
{
    let mut last = Text::Manifest(b"");
    for b in lines {
        last = texts.read_depth(b.value)?;
    }
    Ok(last)
}
