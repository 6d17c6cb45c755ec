// What an edge's rule says of it, once all statements are read.
ghost use Rattle.std.specs.Prelude.{◌≡◌, ◌<◌, map, length, vec_items};
ghost use Rattle.cursor.specs.Told.{maybe};
ghost use Rattle.store.specs.Try.{Gives};
ghost use Rattle.graph.specs.Data.{pool_of, edge_at};
ghost use Rattle.names.specs.Named.{last_of};
ghost use Rattle.draft.specs.Drafts.{state_of};
ghost use Rattle.reader.specs.Values.{in_text, out_text, rule_of, value_for, pool_named, valued};
ghost use Rattle.reader.specs.Given.{values_of, values_for};

use crate::edges::Step;
use crate::kinds::Values;
use crate::paths::{in_text, out_text};
use draft::Draft;
use graph::Pool;
use names::{last_value, place_of};
use std::alloc::Global;
use store::{Stop, Wrong};

// An edge, with what `in` and `out` stand for in the values of its rule.
#[derive(Drop)]
struct Ruled<'d, 'a> {
    draft: &'d Draft<'a>,
    e: usize,
    ins: Vec<u8>,
    outs: Vec<u8>,
    ghost ins_value: { ins.items ≡ in_text (state_of draft.now).files (edge_at (state_of draft.now).edges e) },
    ghost outs_value: { outs.items ≡ out_text (state_of draft.now).files (edge_at (state_of draft.now).edges e) },
}

impl<'d, 'a> Ruled<'d, 'a> {
    // The last line of the rule that sets a name.
    fn line(&self, name: &[u8]) -> Option<&'a [u8]>
        ensures { maybe (λ x. x.now) result ≡ last_of (rule_of (state_of self.now.draft.now) self.now.e).lines name.now }
    {
        let k = self.draft.chosen.get(self.e).copied().unwrap_or(0);
        self.draft
            .rules
            .get(k)
            .and_then(|rule| last_value(&rule.lines, name))
    }

    // A value: the one of the edge's block, or what the rule's line stands for, or nothing.
    fn value(&self, heap: Global, name: &[u8]) -> Result<Vec<u8>, Stop>
        ensures { Gives vec_items result (value_for (state_of self.now.draft.now) self.now.e name.now) }
    {
        let texts = &self.draft.known.texts;
        if let Some(own) = texts.block_value(self.e, name) {
            return Ok(own.to_vec(heap)?);
        }
        let mut out = Vec::new(heap);
        if let Some(v) = self.line(name) {
            texts.rule_value(self.e, &self.ins, &self.outs, v, &mut out)?;
        }
        Ok(out)
    }
}

// The pool that a text names; the empty text names none.
fn pool_named(pools: &[Pool], name: &[u8]) -> Result<Option<usize>, Stop>
    ensures { Gives (λ k. k) result (pool_named (map pool_of pools.now) name.now) }
{
    if name.is_empty() {
        return Ok(None);
    }
    let k = place_of(pools, name).ok_or(Wrong::Unknown)?;
    Ok(Some(k))
}

// All values of an edge, in the order in which they are expanded.
fn values_of(heap: Global, d: &Draft, e: usize) -> Result<Values, Stop>
    requires { e < length (state_of d.now).edges }
    ensures { Gives values_of result (values_for (state_of d.now) e) }
{
    let edge = Ruled {
        draft: d,
        e,
        ins: in_text(heap, &d.known.files, &d.edges[e])?,
        outs: out_text(heap, &d.known.files, &d.edges[e])?,
    };
    let command = edge.value(heap, b"command")?;
    let description = edge.value(heap, b"description")?;
    let pool = edge.value(heap, b"pool")?;
    let restat = edge.value(heap, b"restat")?;
    let pool = pool_named(&d.pools, &pool)?;
    Ok(Values {
        command,
        description,
        pool,
        restat: !restat.is_empty(),
    })
}

// Gives an edge its values; in place of its question stands its command, for now.
pub(crate) struct Valuing;

impl Step for Valuing {
    ghost step = { valued };

    fn take(d: &mut Draft, e: usize) -> Result<(), Stop> {
        let v = values_of(*d.edges.allocator(), d, e)?;
        let edge = &mut d.edges[e];
        edge.question = v.command;
        edge.description = v.description;
        edge.pool = v.pool;
        edge.restat = v.restat;
        Ok(())
    }
}
