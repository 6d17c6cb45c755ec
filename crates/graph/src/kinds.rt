// What a graph is made of: files, pools and edges. They name one another by number: a manifest's rules number them so, and the
// numbers are printed.
use cursor::Place;

#[derive(Drop)]
pub struct File {
    pub path: Vec<u8>,
    // the edge that has this file among its outputs
    pub maker: Option<usize>,
}

#[derive(Drop)]
pub struct Pool {
    pub name: Vec<u8>,
    pub depth: usize,
}

#[derive(Drop)]
pub struct Edge {
    // where its build statement begins
    pub place: Place,
    pub outputs: Vec<usize>,
    // how many of the outputs are explicit; they come first, and the number is printed
    pub explicit_outputs: usize,
    // explicit inputs, then implicit ones
    pub reads: Vec<usize>,
    pub explicit_reads: usize,
    pub order_only: Vec<usize>,
    pub validations: Vec<usize>,
    // the command, the paths that it reads and the paths that it writes
    pub question: Vec<u8>,
    pub description: Vec<u8>,
    pub pool: Option<usize>,
    pub restat: bool,
}
