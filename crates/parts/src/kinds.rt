// What lists and blocks come out as: parts of the manifest, in the order in which they stand.

// A name and the value that it is given.
#[derive(Clone, Copy)]
pub struct Binding<'a> {
    pub name: &'a [u8],
    pub value: &'a [u8],
}

// The statement that a block belongs to.
#[derive(Clone, Copy)]
pub enum Block {
    Rule,
    Pool,
    Build,
}

// What a build statement makes.
#[derive(Drop)]
pub struct Outputs<'a> {
    pub explicit: Vec<&'a [u8]>,
    pub implicit: Vec<&'a [u8]>,
}

// What a build statement needs: read, read but not named to the command, only made before, only made along.
#[derive(Drop)]
pub struct Inputs<'a> {
    pub explicit: Vec<&'a [u8]>,
    pub implicit: Vec<&'a [u8]>,
    pub order_only: Vec<&'a [u8]>,
    pub validations: Vec<&'a [u8]>,
}
