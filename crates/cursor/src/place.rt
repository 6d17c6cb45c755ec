// Where a reader stands in a manifest, and what stops it.
// The structs have a file of their own, since a ghost field imports what its file imports.
ghost use Rattle.std.specs.Prelude.{◌+◌, ◌^◌, ◌<◌, length};

// A place in a manifest: how many bytes stand before it.
#[derive(Clone, Copy, Debug, PartialEq, Eq)]
pub struct Place {
    pub byte: usize,
}

// What is left of a manifest, and the place of its first byte.
#[derive(Clone, Copy)]
pub struct Cursor<'a> {
    pub rest: &'a [u8],
    pub at: usize,
    ghost fits: { at + length rest.now < 2 ^ 32 },
}

// Why a text is no manifest.
#[derive(Clone, Copy, Debug, PartialEq, Eq)]
pub enum Fault {
    // more bytes than a manifest may have
    TooLong,
    // a byte that no manifest may hold
    Banned(Place),
    // a byte, or the end, that the grammar does not admit
    Syntax(Place),
    // a `$` that begins nothing
    Dollar(Place),
    // a word of Ninja that is left out here, or a variable that a block does not take
    LeftOut(Place),
}

// What else could begin where something is expected: then the byte after its first is at fault.
#[derive(Clone, Copy)]
pub enum Opens {
    Nothing,
    // a line continued by a `$`
    Gap,
    // a longer mark that begins with `|`
    Mark,
}
