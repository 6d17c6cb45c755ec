// A graph, with its law in a ghost field: no graph without it can be made.
ghost use Rattle.graph.specs.Data.{data_of};
ghost use Rattle.graph.specs.Lawful.{Lawful};

use crate::kinds::{Edge, File, Pool};

#[derive(Drop)]
pub struct Graph {
    pub files: Vec<File>,
    pub edges: Vec<Edge>,
    pub pools: Vec<Pool>,
    // falls from each edge to those that it needs; beside the edges, which are there before there is a rank for any
    pub ranks: Vec<usize>,
    ghost lawful: { ∥ Lawful (data_of files.items edges.items pools.items ranks.items) ∥₁ },
}
