// The number and the place of each fault, as they are told to people.
ghost use Rattle.std.specs.Prelude.{◌≡◌};
ghost use Rattle.reader.specs.Answers.{wrong_number, numbered};

use crate::fault::Fault;
use cursor::Place;
use store::Wrong;

// The number by which a wrong is known.
fn wrong_number(w: Wrong) -> u8
    ensures { result ≡ wrong_number w }
{
    w as u8
}

impl Fault {
    pub fn number(self) -> u8
        ensures { result ≡ (numbered self).0 }
    {
        match self {
            Fault::Text(f) => f.number(),
            Fault::Meaning(w, _) => wrong_number(w),
        }
    }

    pub fn place(self) -> Place
        ensures { result.byte ≡ (numbered self).1 }
    {
        match self {
            Fault::Text(f) => f.place(),
            Fault::Meaning(_, p) => p,
        }
    }
}
