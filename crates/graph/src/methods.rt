// What is read off a graph.
ghost use Rattle.std.specs.Prelude.{◌≡◌, ℕ, ◌<◌, [], map, length, MatchOption, slice_index};
ghost use Rattle.std.specs.List.{position, slice_get};
ghost use Rattle.std.specs.Str.{bytes_eq};
ghost use Rattle.std.specs.Option.{option_map};
ghost use Rattle.graph.specs.Data.{GraphData, file_of, edge_of, pool_of, no_edge, edge_at, data_of};
ghost use Rattle.graph.specs.Lawful.{Lawful};
ghost use Rattle.graph.specs.Graphs.{graph_of, question_at, SameAction, file_named, Named};

use crate::kinds::{Edge, File, Pool};
use crate::whole::Graph;
use std::alloc::Global;

// The place of the first file with a path. `names::place_of` does the same above this crate, for what has a name there.
fn place_of(files: &[File], path: &[u8]) -> Option<usize>
    ensures { result ≡ position (λ file. bytes_eq file.path.items path.now) files.now }
{
    files.iter().position(|file| file.path.as_slice() == path)
}

impl Graph {
    // A graph with nothing in it.
    pub fn empty(heap: Global) -> Graph
        ensures { graph_of result ≡ data_of [] [] [] [] }
    {
        Graph {
            files: Vec::new(heap),
            edges: Vec::new(heap),
            pools: Vec::new(heap),
            ranks: Vec::new(heap),
        }
    }

    // The file with a number.
    pub fn file(&self, f: usize) -> Option<&File>
        ensures { option_map (λ x. file_of x.now) result ≡ slice_get (graph_of self.now).files f }
    {
        self.files.get(f)
    }

    // The edge with a number.
    pub fn edge(&self, e: usize) -> Option<&Edge>
        ensures value { option_map (λ x. edge_of x.now) result ≡ slice_get (graph_of self.now).edges e }
        ensures cases { MatchOption result (edge_at (graph_of self.now).edges e ≡ no_edge) (λ x. edge_at (graph_of self.now).edges e ≡ edge_of x.now) }
    {
        self.edges.get(e)
    }

    // The pool with a number.
    pub fn pool(&self, p: usize) -> Option<&Pool>
        ensures { option_map (λ x. pool_of x.now) result ≡ slice_get (graph_of self.now).pools p }
    {
        self.pools.get(p)
    }

    // The files that an edge reads: none where there is no such edge.
    pub fn reads(&self, e: usize) -> &[usize]
        ensures { result.now ≡ (edge_at (graph_of self.now).edges e).reads }
    {
        self.edge(e).map_or(&[], |x| &x.reads)
    }

    // The files that an edge only waits for: none where there is no such edge.
    pub fn order_only(&self, e: usize) -> &[usize]
        ensures { result.now ≡ (edge_at (graph_of self.now).edges e).order_only }
    {
        self.edge(e).map_or(&[], |x| &x.order_only)
    }

    // The rank of an edge: 0 where there is no such edge.
    pub fn rank(&self, e: usize) -> usize
        ensures { result ≡ slice_index (graph_of self.now).ranks e }
    {
        self.ranks.get(e).copied().unwrap_or(0)
    }

    // The file with a path: there is one at most.
    pub fn find(&self, path: &[u8]) -> Option<usize>
        ensures says { result ≡ file_named (graph_of self.now).files path.now }
        ensures law { Named (graph_of self.now).files path.now result }
    {
        place_of(&self.files, path)
    }

    // The question, as bytes.
    fn text(&self, e: usize) -> &[u8]
        ensures { result.now ≡ question_at (graph_of self.now) e }
    {
        self.edge(e).map_or(&[], |x| &x.question)
    }

    // The question of an edge. An edge of this graph or of another that asks the same does the same.
    pub fn question(&self, e: usize) -> &[u8]
        ensures value { result.now ≡ question_at (graph_of self.now) e }
        ensures tells { (h : GraphData) (d : ℕ) → Lawful h → e < length (graph_of self.now).edges → d < length h.edges → question_at h d ≡ result.now → SameAction (graph_of self.now) e h d }
    {
        self.text(e)
    }
}
