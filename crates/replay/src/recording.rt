// A recording: the letters `NJR` and then up to 512 bytes, each the number of an edge.
ghost use Rattle.std.specs.Prelude.{◌≡◌};
ghost use Rattle.std.specs.Option.{option_map};
ghost use Rattle.replay.specs.Turns.{endings_of, all_edges};
ghost use Rattle.replay.specs.declared.recording.Fault.TheVariants.{Memory};

use host::EDGES;
use std::alloc::AllocError;

const MOST_ENDINGS: usize = 512;

// Why a replay cannot begin.
#[derive(Clone, Copy, PartialEq, Eq, Debug)]
pub enum Fault {
    Malformed,
    Memory,
}

impl From<AllocError> for Fault {
    ghost from_gives = { λ _ r. r ≡ Memory };

    fn from(_e: AllocError) -> Fault {
        Fault::Memory
    }
}

// The endings of a recording; none where it has another form.
pub(crate) fn endings(recording: &[u8]) -> Option<&[u8]>
    ensures { option_map (λ e. e.now) result ≡ endings_of recording.now }
{
    let endings = recording.strip_prefix(b"NJR")?;
    (endings.len() <= MOST_ENDINGS && are_edges(endings)).then_some(endings)
}

// Whether each byte is the number of an edge.
fn are_edges(endings: &[u8]) -> bool
    ensures { result ≡ all_edges endings.now }
{
    endings.iter().all(|&e| usize::from(e) < EDGES)
}
