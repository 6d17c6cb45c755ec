// The class of each byte of a manifest, by a table. Nothing but `entry` looks into it.
ghost use Rattle.std.specs.Prelude.{◌≡◌, ◌<◌};
ghost use Rattle.byteclass.specs.Class.{class, name_class, simple_class, banned_class, name_byte, simple_byte, banned_byte};

use Class::*;

#[derive(Clone, Copy)]
pub enum Class {
    // a byte that no manifest may hold
    Banned,
    // the end of a line
    End,
    Space,
    // what begins an escape
    Dollar,
    // of a name, but of no simple one
    Dot,
    // of a simple name
    Simple,
    // what stands between the parts of a statement
    Mark,
    Other,
}

// A table and no match on ranges: the rules of a manifest give each byte its class in one (docs/manifest-text.md).
static CLASSES: [Class; 256] = [
    Banned, Other, Other, Other, Other, Other, Other, Other, Other, Banned, End, Other, Other,
    Banned, Other, Other, Other, Other, Other, Other, Other, Other, Other, Other, Other, Other,
    Other, Other, Other, Other, Other, Other, Space, Other, Other, Other, Dollar, Other, Other,
    Other, Other, Other, Other, Other, Other, Simple, Dot, Other, Simple, Simple, Simple, Simple,
    Simple, Simple, Simple, Simple, Simple, Simple, Mark, Other, Other, Other, Other, Other, Other,
    Simple, Simple, Simple, Simple, Simple, Simple, Simple, Simple, Simple, Simple, Simple, Simple,
    Simple, Simple, Simple, Simple, Simple, Simple, Simple, Simple, Simple, Simple, Simple, Simple,
    Simple, Simple, Other, Other, Other, Other, Simple, Other, Simple, Simple, Simple, Simple,
    Simple, Simple, Simple, Simple, Simple, Simple, Simple, Simple, Simple, Simple, Simple, Simple,
    Simple, Simple, Simple, Simple, Simple, Simple, Simple, Simple, Simple, Simple, Other, Mark,
    Other, Other, Other, Other, Other, Other, Other, Other, Other, Other, Other, Other, Other,
    Other, Other, Other, Other, Other, Other, Other, Other, Other, Other, Other, Other, Other,
    Other, Other, Other, Other, Other, Other, Other, Other, Other, Other, Other, Other, Other,
    Other, Other, Other, Other, Other, Other, Other, Other, Other, Other, Other, Other, Other,
    Other, Other, Other, Other, Other, Other, Other, Other, Other, Other, Other, Other, Other,
    Other, Other, Other, Other, Other, Other, Other, Other, Other, Other, Other, Other, Other,
    Other, Other, Other, Other, Other, Other, Other, Other, Other, Other, Other, Other, Other,
    Other, Other, Other, Other, Other, Other, Other, Other, Other, Other, Other, Other, Other,
    Other, Other, Other, Other, Other, Other, Other, Other, Other, Other, Other, Other, Other,
    Other, Other, Other, Other, Other, Other, Other, Other, Other, Other, Other, Other, Other,
    Other,
];

// The entry of the table at i.
fn entry(i: usize) -> Class
    requires { i < 256 }
    ensures { result ≡ class i }
{
    CLASSES[i]
}

// The class of a byte.
pub fn class_of(b: u8) -> Class
    ensures { result ≡ class b }
{
    entry(usize::from(b))
}

impl Class {
    // Whether bytes of the class stand in names.
    pub fn in_name(self) -> bool
        ensures { result ≡ name_class self }
    {
        matches!(self, Simple | Dot)
    }

    // Whether bytes of the class stand in a name that follows a `$` with no braces.
    pub fn in_simple_name(self) -> bool
        ensures { result ≡ simple_class self }
    {
        matches!(self, Simple)
    }

    // Whether no manifest may hold bytes of the class.
    pub fn in_none(self) -> bool
        ensures { result ≡ banned_class self }
    {
        matches!(self, Banned)
    }
}

pub fn is_name(b: u8) -> bool
    ensures { result ≡ name_byte b }
{
    class_of(b).in_name()
}

pub fn is_simple(b: u8) -> bool
    ensures { result ≡ simple_byte b }
{
    class_of(b).in_simple_name()
}

pub fn is_banned(b: u8) -> bool
    ensures { result ≡ banned_byte b }
{
    class_of(b).in_none()
}
