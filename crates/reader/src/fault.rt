// Why a manifest is refused, with the place, and why a call that allocates answers nothing.
ghost use Rattle.std.specs.Prelude.{◌≡◌};
ghost use Rattle.parts.specs.declared.refusal.Refusal.TheVariants.{Faulty as BadText, Memory as NoMemory};
ghost use Rattle.reader.specs.declared.fault.Fault.TheVariants.{Text};
ghost use Rattle.reader.specs.declared.fault.Refusal.TheVariants.{Faulty, Memory};

use cursor::Place;
use std::alloc::AllocError;
use store::Wrong;

#[derive(Clone, Copy, Debug)]
pub enum Fault {
    // the text is no manifest
    Text(cursor::Fault),
    // the statement at the place breaks a rule
    Meaning(Wrong, Place),
}

// Its conversions stand below: one error type over each fault's type would need the same three.
#[derive(Clone, Copy, Debug)]
pub enum Refusal {
    Faulty(Fault),
    // there is no memory for the answer
    Memory,
}

impl From<cursor::Fault> for Refusal {
    ghost from_gives = { λ f r. r ≡ Faulty (Text f) };

    fn from(f: cursor::Fault) -> Refusal {
        Refusal::Faulty(Fault::Text(f))
    }
}

impl From<AllocError> for Refusal {
    ghost from_gives = { λ _ r. r ≡ Memory };

    fn from(_e: AllocError) -> Refusal {
        Refusal::Memory
    }
}

impl From<parts::Refusal> for Refusal {
    ghost from_gives = { λ e r. r ≡ elim e [ BadText f ↦ Faulty (Text f) | NoMemory ↦ Memory ] };

    fn from(e: parts::Refusal) -> Refusal {
        match e {
            parts::Refusal::Faulty(f) => Refusal::Faulty(Fault::Text(f)),
            parts::Refusal::Memory => Refusal::Memory,
        }
    }
}
