// The paths of a build statement, list by list.
ghost use Rattle.std.specs.Prelude.{ℕ, List, [], map};
ghost use Rattle.expansion.specs.Meaning.{texts_of};
ghost use Rattle.store.specs.Try.{Try, Gives};
ghost use Rattle.text.specs.Text.{work_of};
ghost use Rattle.lists.specs.Meaning.{files_of, walk_of, lists_of};
ghost use Rattle.lists.specs.Files.{Walk, take_input, take_output};
ghost use Rattle.lists.specs.Each.{each_try};
ghost use Rattle.lists.specs.Paths.{take_paths};

use crate::files::{claim, listed, mention};
use crate::kinds::{Known, Paths};
use store::Stop;
use text::Edge;

// How many files each list of an edge may have.
const OUTPUTS: usize = 8;

const INPUTS: usize = 64;

const VALIDATIONS: usize = 16;

// How the paths of a list are taken. `known` and `found` are two parameters: a struct of two `&mut` would owe clauses of its
// own for what each leaves.
trait Taking {
    ghost taken: { Self → Walk → List ℕ → Try Walk };

    // Takes one path.
    fn take<'a>(
        &self,
        known: &mut Known<'a>,
        found: &mut Vec<usize>,
        path: &'a [u8],
    ) -> Result<(), Stop>
        ensures { Gives (λ _. walk_of known.new found.new) result (taken self.now (walk_of known.old found.old) path.now) };
}

// Inputs or validations, at most so many.
#[derive(Drop)]
struct AtMost(usize);

impl Taking for AtMost {
    ghost taken = { λ s. take_input s.0 };

    fn take<'a>(
        &self,
        known: &mut Known<'a>,
        found: &mut Vec<usize>,
        path: &'a [u8],
    ) -> Result<(), Stop> {
        let text = known.texts.read_path(path)?;
        let i = mention(&mut known.files, known.texts.text(text))?;
        listed(self.0, found, i)
    }
}

// The outputs of the edge with the number. One function for what both take first would owe a clause on the middle of a chain of steps.
#[derive(Drop)]
struct MadeBy(usize);

impl Taking for MadeBy {
    ghost taken = { λ s. take_output s.0 };

    fn take<'a>(
        &self,
        known: &mut Known<'a>,
        found: &mut Vec<usize>,
        path: &'a [u8],
    ) -> Result<(), Stop> {
        let text = known.texts.read_path(path)?;
        let i = mention(&mut known.files, known.texts.text(text))?;
        claim(&mut known.files, i, self.0)?;
        listed(OUTPUTS, found, i)
    }
}

// Takes the paths of a list, or of a part of it.
fn take_all<'a, T: Taking>(
    how: &T,
    known: &mut Known<'a>,
    found: &mut Vec<usize>,
    paths: &[&'a [u8]],
) -> Result<(), Stop>
    ensures { Gives (λ _. walk_of known.new found.new) result (each_try (T.taken how.now) (walk_of known.old found.old) (map (λ x. x.now) paths.now)) }
{
    for path in paths {
        how.take(known, found, *path)?;
    }
    Ok(())
}

// Takes the paths of a build statement as those of the edge e.
pub fn take_paths<'a>(e: usize, known: &mut Known<'a>, w: &Edge<'a>) -> Result<Paths, Stop>
    ensures { Gives (lists_of known.new) result (take_paths e (record { texts = texts_of known.old.texts; files = files_of known.old.files; found = [] }) (work_of w.now)) }
{
    let heap = *known.files.allocator();
    let mut outputs = Vec::new(heap);
    take_all(&MadeBy(e), known, &mut outputs, &w.outputs.explicit)?;
    take_all(&MadeBy(e), known, &mut outputs, &w.outputs.implicit)?;
    let mut reads = Vec::new(heap);
    take_all(&AtMost(INPUTS), known, &mut reads, &w.inputs.explicit)?;
    take_all(&AtMost(INPUTS), known, &mut reads, &w.inputs.implicit)?;
    let mut order_only = Vec::new(heap);
    take_all(
        &AtMost(INPUTS),
        known,
        &mut order_only,
        &w.inputs.order_only,
    )?;
    let mut validations = Vec::new(heap);
    take_all(
        &AtMost(VALIDATIONS),
        known,
        &mut validations,
        &w.inputs.validations,
    )?;
    Ok(Paths {
        outputs,
        reads,
        order_only,
        validations,
    })
}
