// What an edge gets from its rule and its block.
#[derive(Drop)]
pub struct Values {
    pub command: Vec<u8>,
    pub description: Vec<u8>,
    pub pool: Option<usize>,
    pub restat: bool,
}
