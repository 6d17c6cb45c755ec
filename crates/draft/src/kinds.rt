// What the statements of a manifest have come to so far.
use graph::{Edge, Pool};
use lists::Known;
use text::Declared;

#[derive(Drop)]
pub struct Draft<'a> {
    pub known: Known<'a>,
    pub rules: Vec<Declared<'a>>,
    pub pools: Vec<Pool>,
    pub edges: Vec<Edge>,
    // the rule of each edge; beside the edges, since a graph takes the list of these as it is
    pub chosen: Vec<usize>,
}
