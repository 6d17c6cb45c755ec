// The parts of a graph before they are put together, and its text store. They stand beside Graph because no graph can be
// made before its law is known, which only the whole reading gives.
use graph::{Edge, File, Pool};
use store::Store;

#[derive(Drop)]
pub struct Pieces {
    pub files: Vec<File>,
    pub edges: Vec<Edge>,
    pub pools: Vec<Pool>,
    pub ranks: Vec<usize>,
    pub store: Store,
}
