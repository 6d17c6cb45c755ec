// Texts within limits, and what the store receives of them.
ghost use Rattle.std.specs.Prelude.{◌≡◌, ◌≤◌, length, take, IfOk};
ghost use Rattle.store.specs.Try.{Gives};
ghost use Rattle.store.specs.Stores.{used_of, stored};
ghost use Rattle.store.specs.Held.{text_in, reach};
ghost use Rattle.values.specs.Expand.{look, expand};
ghost use Rattle.values.specs.Kept.{sized, keep};
ghost use Rattle.values.specs.Scopes.{scope_of, scope_in, kept_in};

use crate::expand::expand_into;
use crate::limits::Limits;
use crate::scope::{Lists, Names};
use store::{Stop, Store, Text, Wrong};

// Leaves in `out` what a value stands for, if that keeps the limits.
pub fn expand_within<'b>(
    c: Names<'b>,
    limits: Limits,
    v: &'b [u8],
    out: &mut Vec<u8>,
) -> Result<(), Stop>
    ensures { Gives (λ _. out.new.items) result (sized limits.least limits.most (expand (look (scope_of c.entry)) v.now)) }
{
    out.clear();
    expand_into(c, v, limits.most, out)?;
    if out.len() < limits.least {
        return Err(Stop::Because(Wrong::Limit));
    }
    Ok(())
}

// Puts a text behind the used bytes of the store.
pub fn put<'a>(store: &mut Store, text: &[u8]) -> Result<Text<'a>, Stop>
    ensures says { Gives (λ _. used_of store.new) result (stored (used_of store.old) text.now) }
    ensures grown { take (length (used_of store.old)) (used_of store.new) ≡ used_of store.old }
    ensures holds { IfOk result (λ t. text_in (used_of store.new) t ≡ text.now) }
    ensures lies { IfOk result (λ t. reach t ≤ length (used_of store.new)) }
{
    let from = store.used();
    store.add(text)?;
    Ok(Text::Store {
        from,
        len: text.len(),
    })
}

// Keeps the text of a value, if that keeps the limits: the store receives it if the value has a `$`, else it is the value itself.
pub fn keep<'a>(
    store: &mut Store,
    scratch: &mut Vec<u8>,
    lists: Lists<'_>,
    limits: Limits,
    v: &'a [u8],
) -> Result<Text<'a>, Stop>
    ensures says { Gives (λ t. kept_in (used_of store.new) t) result (keep limits.least limits.most (scope_in (used_of store.old) lists.entry.special.now lists.entry.block.now lists.entry.file.now) (used_of store.old) v.now) }
    ensures grown { take (length (used_of store.old)) (used_of store.new) ≡ used_of store.old }
    ensures lies { IfOk result (λ t. reach t ≤ length (used_of store.new)) }
{
    if v.contains(&b'$') {
        let names = Names {
            store: &*store,
            lists,
        };
        expand_within(names, limits, v, scratch)?;
        return put(store, scratch);
    }
    if !limits.allow(v.len()) {
        return Err(Stop::Because(Wrong::Limit));
    }
    Ok(Text::Manifest(v))
}
