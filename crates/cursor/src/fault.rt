// The number and the place of each fault, as they are told to people.
ghost use Rattle.std.specs.Prelude.{◌≡◌};
ghost use Rattle.cursor.specs.Scan.{numbered};

use crate::place::{Fault, Place};

// The most bytes that a manifest may have.
pub const LIMIT: usize = 65_535;

impl Fault {
    // The number. Most faults carry a place, so that no cast of a discriminant gives it.
    pub fn number(self) -> u8
        ensures { result ≡ (numbered self).0 }
    {
        match self {
            Fault::TooLong => 1,
            Fault::Banned(_) => 2,
            Fault::Syntax(_) => 3,
            Fault::Dollar(_) => 4,
            Fault::LeftOut(_) => 5,
        }
    }

    // The place: of a text that is too long, the first byte over the limit.
    pub fn place(self) -> Place
        ensures { result.byte ≡ (numbered self).1 }
    {
        match self {
            Fault::TooLong => Place { byte: LIMIT },
            Fault::Banned(p) | Fault::Syntax(p) | Fault::Dollar(p) | Fault::LeftOut(p) => p,
        }
    }
}
