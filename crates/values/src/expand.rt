// Names looked up, and values expanded.
ghost use Rattle.std.specs.Prelude.{◌≡◌, ◌<◌, ◌≤◌, ◌++◌, length, drop, vec_len};
ghost use Rattle.cursor.specs.Told.{maybe};
ghost use Rattle.store.specs.Stores.{used_of};
ghost use Rattle.store.specs.Held.{entries_in};
ghost use Rattle.values.specs.Expand.{find, look, piece, expand_from};
ghost use Rattle.values.specs.Scopes.{scope_of};
ghost use Rattle.values.specs.Fills.{Fills};

use crate::scan::split_run;
use crate::scope::Names;
use byteclass::{is_name, is_simple};
use store::calls::past;
use store::{Stop, Store, Variable, Wrong};

// The text of a variable: a part of the manifest or of the store.
pub fn find<'b>(store: &'b Store, vars: &'b [Variable<'b>], name: &[u8]) -> Option<&'b [u8]>
    ensures { maybe (λ x. x.now) result ≡ find (entries_in (used_of store.now) vars.now) name.now }
{
    vars.iter()
        .find(|v| v.name == name)
        .map(|v| store.text(v.value))
}

impl<'b> Names<'b> {
    // The text of a name: the first that is found, else nothing.
    pub fn look(self, name: &[u8]) -> &'b [u8]
        ensures { result.now ≡ look (scope_of self.entry) name.now }
    {
        // One list after another: a `chain` of the three asks at each variable in which list it is, and takes twice as long.
        if let Some(text) = find(self.store, self.lists.special, name) {
            return text;
        }
        if let Some(text) = find(self.store, self.lists.block, name) {
            return text;
        }
        find(self.store, self.lists.file, name).unwrap_or_default()
    }
}

// What stands for a `$` and the bytes after it, and what is left: the next byte decides.
fn piece_at<'b>(c: Names<'b>, s: &'b [u8]) -> (&'b [u8], &'b [u8])
    ensures text { result.0.now ≡ (piece (look (scope_of c.entry)) s.now).text }
    ensures rest { result.1.now ≡ drop (piece (look (scope_of c.entry)) s.now).taken s.now }
{
    match s {
        [] => (b"", s),
        [b'\n', rest @ ..] => (b"", split_run(rest, |b| b == b' ').1),
        [b' ' | b':' | b'$', rest @ ..] => (&s[..1], rest),
        [b'{', rest @ ..] => {
            let (name, after) = split_run(rest, is_name);
            (c.look(name), past(after, 1))
        }
        _ => {
            let (name, after) = split_run(s, is_simple);
            (c.look(name), after)
        }
    }
}

// What stands first in a value comes out as: all bytes before a `$`, or what stands for the `$`. And what is left.
fn part_at<'b>(c: Names<'b>, s: &'b [u8]) -> (&'b [u8], &'b [u8])
    ensures cut { expand_from (look (scope_of c.entry)) 0 s.now ≡ result.0.now ++ expand_from (look (scope_of c.entry)) 0 result.1.now }
    ensures less { 0 < length s.now → length result.1.now < length s.now }
{
    let (plain, rest) = split_run(s, |b| b != b'$');
    if plain.is_empty() {
        return piece_at(c, past(rest, 1));
    }
    (plain, rest)
}

// Appends a text, if that leaves `out` within the limit.
fn append(out: &mut Vec<u8>, limit: usize, more: &[u8]) -> Result<(), Stop>
    requires { vec_len out.old ≤ limit }
    ensures { Fills result limit (out.old.items ++ more.now) out.new.items }
{
    if more.len() > limit - out.len() {
        return Err(Stop::Because(Wrong::Limit));
    }
    out.extend_from_slice(more)?;
    Ok(())
}

// Appends what a value stands for, if that leaves `out` within the limit.
pub(crate) fn expand_into<'b>(
    c: Names<'b>,
    value: &'b [u8],
    limit: usize,
    out: &mut Vec<u8>,
) -> Result<(), Stop>
    requires { vec_len out.old ≤ limit }
    ensures { Fills result limit (out.old.items ++ expand_from (look (scope_of c.entry)) 0 value.now) out.new.items }
{
    // Each turn takes one part, whose length its own bytes decide: no iterator of the library steps so.
    let mut rest = value;
    while !rest.is_empty() {
        let (text, after) = part_at(c, rest);
        append(out, limit, text)?;
        rest = after;
    }
    Ok(())
}
