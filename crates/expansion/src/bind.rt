// A variable set among others: a later text replaces an earlier one.
ghost use Rattle.std.specs.Prelude.{ℕ, ◌≤◌, max, List};
ghost use Rattle.store.specs.Try.{Gives};
ghost use Rattle.store.specs.Held.{entry_in, entries_in, reach, furthest};
ghost use Rattle.values.specs.Kept.{bound};

use store::held::place_of;
use store::{Stop, Variable, Wrong};

// Sets a variable, among at most so many.
pub(crate) fn bind_in<'a>(
    vars: &mut Vec<Variable<'a>>,
    limit: usize,
    v: Variable<'a>,
) -> Result<(), Stop>
    ensures says { (u : List ℕ) → Gives (λ _. entries_in u vars.new.items) result (bound limit (entries_in u vars.old.items) (entry_in u v.entry)) }
    ensures lies { furthest vars.new.items ≤ max (furthest vars.old.items) (reach v.entry.value) }
{
    match place_of(vars, v.name) {
        Some(i) => vars[i] = v,
        None if vars.len() < limit => vars.push(v)?,
        None => return Err(Stop::Because(Wrong::Limit)),
    }
    Ok(())
}
