// The load of a manifest: its graph and text store, or its first fault.
ghost use Rattle.store.specs.Stores.{used_of};
ghost use Rattle.graph.specs.Graphs.{graph_of};
ghost use Rattle.draft.specs.Drafts.{state_of};
ghost use Rattle.reader.specs.Load.{finish, load_of};
ghost use Rattle.reader.specs.Told.{Tells};
ghost use Rattle.reader.specs.Loads.{pieces_of, whole_of, Loads, Meant, Round};

use crate::edge_values::Valuing;
use crate::edges::each_edge;
use crate::fault::{Fault, Refusal};
use crate::pieces::Pieces;
use crate::questions::Asking;
use crate::reading::read;
use draft::Draft;
use graph::{Graph, Unranked, order};
use lists::Known;
use std::alloc::Global;
use store::{Store, Wrong};

// What is done once all statements are read: circles, values, questions.
fn complete(heap: Global, mut draft: Draft) -> Result<Pieces, Refusal>
    ensures { Tells pieces_of result (finish (state_of draft.entry)) }
{
    // a circle gets the place of its edge, so that no `From` can stand for this
    let ranks = order(heap, &draft.known.files, &draft.edges).map_err(|u| match u {
        Unranked::Circle(c) => Refusal::Faulty(Fault::Meaning(Wrong::Circle, draft.edges[c].place)),
        Unranked::Memory => Refusal::Memory,
    })?;
    each_edge::<Valuing>(&mut draft)?;
    each_edge::<Asking>(&mut draft)?;
    let Known { texts, files } = draft.known;
    Ok(Pieces {
        files,
        edges: draft.edges,
        pools: draft.pools,
        ranks,
        store: texts.into_store(),
    })
}

// The graph and the store of a text.
fn whole(heap: Global, manifest: &[u8]) -> Result<(Graph, Store), Refusal>
    ensures { Tells whole_of result (load_of manifest.now) }
{
    let draft = read(heap, manifest)?;
    let Pieces {
        files,
        edges,
        pools,
        ranks,
        store,
    } = complete(heap, draft)?;
    Ok((
        Graph {
            files,
            edges,
            pools,
            ranks,
        },
        store,
    ))
}

// Fills the graph and the text store with what a manifest means; a refused load leaves an empty graph and a store of zeros.
pub fn load(
    heap: Global,
    manifest: &[u8],
    graph: &mut Graph,
    store: &mut Store,
) -> Result<(), Refusal>
    ensures says { Loads result (graph_of graph.new) (used_of store.new) (load_of manifest.now) }
    ensures means { Meant result (graph_of graph.new) (used_of store.new) manifest.now }
    ensures circle { Round result manifest.now }
{
    store.clear();
    *graph = Graph::empty(heap);
    let (g, s) = whole(heap, manifest)?;
    *graph = g;
    *store = s;
    Ok(())
}
