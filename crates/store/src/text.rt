// Texts of a manifest, and the variables that hold them.

#[derive(Clone, Copy)]
pub enum Text<'a> {
    // a part of the manifest
    Manifest(&'a [u8]),
    // a part of the store
    Store { from: usize, len: usize },
}

#[derive(Clone, Copy)]
pub struct Variable<'a> {
    pub name: &'a [u8],
    pub value: Text<'a>,
}
