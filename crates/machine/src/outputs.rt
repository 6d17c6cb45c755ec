// The outputs of a command, kept without memory of their own.
ghost use Rattle.std.specs.Prelude.{◌≡◌, ◌≤◌, false, length};
ghost use Rattle.host.specs.Refusals.{strays};

use crate::command::MOST_OUTPUTS;
use arrayvec::ArrayVec;

// File numbers, which are below 256, in a byte each.
pub(crate) fn kept(files: &[usize]) -> ArrayVec<u8, MOST_OUTPUTS>
    requires few { length files.now ≤ 8 }
    requires within { strays files.now ≡ false }
    ensures { result.items ≡ files.now }
{
    let mut outputs = ArrayVec::new();
    for file in files {
        outputs.push(*file as u8);
    }
    outputs
}
