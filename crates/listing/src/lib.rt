// The lines that tell a whole graph, and the line that tells why there is none.
#![tactic(auto)]

mod hash;
mod lines;
mod words;

ghost use Rattle.std.specs.Prelude.{◌≡◌, map};
ghost use Rattle.graph.specs.Data.{file_of, pool_of, edge_of};
ghost use Rattle.listing.specs.Listing.{listing_of, refusal_line, Shows};

use crate::lines::{put_all, put_store};
use graph::{Edge, File, Pool};
use std::alloc::{AllocError, Global};

// Room that most listings do with, so that they are not moved as they grow.
const ROOM: usize = 65_536;

// Every file, pool and edge of a graph, and the used bytes and the hash of the store that its texts came from.
// Of the store a caller has the bytes and how many of them are used.
pub fn listing(
    heap: Global,
    files: &[File],
    pools: &[Pool],
    edges: &[Edge],
    store: &[u8],
    used: usize,
) -> Result<Vec<u8>, AllocError>
    ensures { Shows result (listing_of (map file_of files.now) (map pool_of pools.now) (map edge_of edges.now) used store.now) }
{
    let mut out = Vec::with_capacity(heap, ROOM)?;
    put_all(&mut out, files)?;
    put_all(&mut out, pools)?;
    put_all(&mut out, edges)?;
    put_store(&mut out, store, used)?;
    Ok(out)
}

// The number and the place of a refusal.
pub fn refusal_line(heap: Global, number: usize, place: usize) -> Result<Vec<u8>, AllocError>
    ensures { Shows result (refusal_line number place) }
{
    Ok(format!(in heap; "refused {number} at {place}\n")?.into_bytes())
}
