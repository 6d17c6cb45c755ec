// What statements come out as: parts of the manifest, with the place where each begins.
use cursor::Place;
use parts::{Binding, Inputs, Outputs};

// A rule or a pool, with the lines of its block.
#[derive(Drop)]
pub struct Declared<'a> {
    pub name: &'a [u8],
    pub lines: Vec<Binding<'a>>,
}

// A build statement, with the lines of its block.
#[derive(Drop)]
pub struct Edge<'a> {
    pub outputs: Outputs<'a>,
    pub rule: &'a [u8],
    pub inputs: Inputs<'a>,
    pub lines: Vec<Binding<'a>>,
}

#[derive(Drop)]
pub enum Body<'a> {
    Variable(Binding<'a>),
    Rule(Declared<'a>),
    Pool(Declared<'a>),
    Build(Edge<'a>),
}

#[derive(Drop)]
pub struct Statement<'a> {
    pub place: Place,
    pub body: Body<'a>,
}
