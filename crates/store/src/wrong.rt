// What is wrong with what a manifest says, and why a call that allocates answers nothing.
ghost use Rattle.std.specs.Prelude.{◌≡◌};
ghost use Rattle.store.specs.declared.wrong.Stop.TheVariants.{Because, Memory};

use std::alloc::{AllocError, AllocFailed};

// What is wrong, with the number by which each is known.
#[derive(Clone, Copy, Debug, PartialEq, Eq)]
pub enum Wrong {
    // a rule that is not declared above, or a pool that is declared nowhere
    Unknown = 6,
    // a rule or a pool that is declared twice
    Again = 7,
    // an output that is made twice
    Made = 8,
    // a limit that is passed
    Limit = 9,
    // a rule without a command line, or a pool without a lawful depth
    Lacks = 10,
    // edges whose inputs go round in a circle
    Circle = 12,
}

// Other crates have such an enum for refusals of their own. One generic over the refusal could not have these impls:
// a `From<E>` for every E overlaps that of `AllocError`.
#[derive(Clone, Copy, Debug)]
pub enum Stop {
    Because(Wrong),
    // there is no memory for the answer
    Memory,
}

impl From<Wrong> for Stop {
    ghost from_gives = { λ w r. r ≡ Because w };

    fn from(w: Wrong) -> Stop {
        Stop::Because(w)
    }
}

impl From<AllocError> for Stop {
    ghost from_gives = { λ _ r. r ≡ Memory };

    fn from(_e: AllocError) -> Stop {
        Stop::Memory
    }
}

impl<T: Drop> From<AllocFailed<T>> for Stop {
    ghost from_gives = { λ _ r. r ≡ Memory };

    fn from(_e: AllocFailed<T>) -> Stop {
        Stop::Memory
    }
}
