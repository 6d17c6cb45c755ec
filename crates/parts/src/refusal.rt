// Why a call that allocates answers nothing.
// Errors of other crates look alike, but one type for all needs these impls for each fault: a `From<E>` for every E meets that of the allocator.
ghost use Rattle.std.specs.Prelude.{◌≡◌};
ghost use Rattle.parts.specs.declared.refusal.Refusal.TheVariants.{Faulty, Memory};

use cursor::Fault;
use std::alloc::AllocFailed;

#[derive(Clone, Copy)]
pub enum Refusal {
    // the text is no manifest
    Faulty(Fault),
    // there is no memory for the answer
    Memory,
}

impl From<Fault> for Refusal {
    ghost from_gives = { λ f r. r ≡ Faulty f };

    fn from(f: Fault) -> Refusal {
        Refusal::Faulty(f)
    }
}

impl<T: Drop> From<AllocFailed<T>> for Refusal {
    ghost from_gives = { λ _ r. r ≡ Memory };

    fn from(_e: AllocFailed<T>) -> Refusal {
        Refusal::Memory
    }
}
