// What ends of commands and outside writes do to a disk.
ghost use Rattle.std.specs.Prelude.{◌≡◌, ◌+◌, ◌<◌, ◌≤◌, length, replicate, IfOk, None, slice_index_or, slice_set};
ghost use Rattle.host.specs.State.{at};
ghost use Rattle.host.specs.Refusals.{tell_answer};
ghost use Rattle.host.specs.Calls.{placed};
ghost use Rattle.machine.specs.Ends.{settled, all_settled, all_removed, has, left_by};
ghost use Rattle.machine.specs.Pendings.{marks_from, told};
ghost use Rattle.machine.specs.Disks.{volume};

use crate::checks::LAST_FILE;
use crate::command::Pending;
use crate::disk::Disk;
use crate::fnv;
use host::{Refusal, Stamped};
use std::alloc::{AllocError, Global};

const FILES: usize = LAST_FILE + 1;

impl Disk {
    // No files, clock 0.
    pub(crate) fn new(heap: Global) -> Result<Disk, AllocError>
        ensures { IfOk result (λ d. volume d ≡ record { files = replicate 256 None; clock = 0 }) }
    {
        Ok(Disk {
            files: vec![in heap; None; FILES]?,
            clock: 0,
        })
    }

    pub(crate) fn tell(&self, file: usize) -> Result<Option<Stamped>, Refusal>
        ensures { result ≡ tell_answer (volume self.now).files file }
    {
        self.files.get(file).copied().ok_or(Refusal::BadCall)
    }

    pub(crate) fn time(&self) -> u32
        ensures { result ≡ (volume self.now).clock }
    {
        self.clock
    }

    // What stands at a file number; past the last file it is absent.
    pub(crate) fn look(&self, file: usize) -> Option<Stamped>
        ensures { result ≡ at self.now.files.items file }
    {
        self.files.get(file).copied().flatten()
    }

    // The clock rises, and the file gets the mark with that stamp or is removed.
    pub(crate) fn place(&mut self, file: u8, mark: Option<u32>)
        requires { self.old.clock < 4100000000 }
        ensures { volume self.new ≡ record { files = slice_set (volume self.old).files file (placed (self.old.clock + 1) mark); clock = self.old.clock + 1 } }
    {
        self.rise();
        let stamp = self.clock;
        self.files[usize::from(file)] = mark.map(|mark| Stamped { stamp, mark });
    }

    // The clock rises by 1. How far it may rise only the machine knows, which counts the outputs still to come: so each step asks for it.
    pub(crate) fn rise(&mut self)
        requires { self.old.clock < 4100000000 }
        ensures { volume self.new ≡ record { files = (volume self.old).files; clock = self.old.clock + 1 } }
    {
        self.clock += 1;
    }

    // A mark comes into a file. One that has it is left alone, unless all is rewritten.
    fn settle(&mut self, file: u8, mark: u32, rewrites: bool)
        requires { self.old.clock < 4100000000 }
        ensures after { volume self.new ≡ settled rewrites (volume self.old) file mark }
        ensures clock { self.new.clock ≤ self.old.clock + 1 }
    {
        if !rewrites && self.has(file, mark) {
            return;
        }
        self.place(file, Some(mark));
    }

    // Whether the file is there and has this mark.
    fn has(&self, file: u8, mark: u32) -> bool
        ensures { result ≡ has (slice_index_or (volume self.now).files file None) mark }
    {
        self.files[usize::from(file)].is_some_and(|held| held.mark == mark)
    }

    // The marks of a hash come into the outputs, in their order.
    #[tactic(auto, using(crate::proofs::Settles::settle_more, crate::proofs::Settles::settle_all))]
    pub(crate) fn settle_all(&mut self, outputs: &[u8], hash: u32, rewrites: bool)
        requires few { length outputs.now ≤ 8 }
        requires clock { self.old.clock ≤ 4000000513 }
        ensures { volume self.new ≡ all_settled rewrites (volume self.old) outputs.now (marks_from (length outputs.now) hash) }
    {
        for (place, file) in outputs.iter().enumerate() {
            let mark = fnv::step(hash, place as u8);
            self.settle(*file, mark, rewrites);
        }
    }

    // What a command leaves as it ends.
    pub(crate) fn leave(&mut self, command: &Pending, rewrites: bool)
        requires { self.old.clock ≤ 4000000513 }
        ensures { volume self.new ≡ left_by rewrites (volume self.old) (told command.now).outputs (told command.now).outcome }
    {
        match command.hash {
            Some(hash) => self.settle_all(&command.outputs, hash, rewrites),
            None => self.remove_all(&command.outputs),
        }
    }

    // The outputs are removed; the clock stays.
    pub(crate) fn remove_all(&mut self, outputs: &[u8])
        ensures { volume self.new ≡ record { files = all_removed (volume self.old).files outputs.now; clock = self.old.clock } }
    {
        for file in outputs {
            self.files[usize::from(*file)] = None;
        }
    }
}
