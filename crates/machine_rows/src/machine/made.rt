// What machines make.
ghost use Rattle.std.specs.Prelude.{◌*◌, ◌≤◌, length};
ghost use Rattle.md_machine.specs.Outputs.{frame_length};
ghost use Rattle.md_chips.specs.Regions.{most_entries, most_pairs};

use md_machine::Machine;
use std::alloc::{AllocError, Global};

/// What a machine made since power-on: the bytes of the journal's entries and of the pairs of samples; and of the
/// frame that was finished with the last run, if one was.
#[derive(Drop)]
pub(crate) struct Made {
    pub entries: Vec<u8>,
    pub pairs: Vec<u8>,
    pub frame: Vec<u8>,
}

impl Made {
    /// Nothing.
    pub(crate) fn new(alloc: Global) -> Made {
        Made {
            entries: Vec::new(alloc),
            pairs: Vec::new(alloc),
            frame: Vec::new(alloc),
        }
    }

    /// Adds what a machine made since it was last drained.
    pub(crate) fn take(&mut self, machine: &mut Machine, alloc: Global) -> Result<(), AllocError>
        requires entries { length machine.old.entries ≤ most_entries machine.old.console.pal }
        requires frames { length machine.old.media.frames ≤ 1 }
        requires samples { length machine.old.media.levels ≤ most_pairs machine.old.console.pal }
    {
        if machine.pal() {
            self.take_up_to(machine, alloc, 1_001_600, 4_288, 230_415)
        } else {
            self.take_up_to(machine, alloc, 840_000, 3_584, 215_055)
        }
    }

    /// Adds it, with room for so many bytes of each.
    fn take_up_to(
        &mut self,
        machine: &mut Machine,
        alloc: Global,
        entries: usize,
        pairs: usize,
        frame: usize,
    ) -> Result<(), AllocError>
        requires entries { 16 * length machine.old.entries ≤ entries }
        requires frame { frame_length machine.old.console.pal * length machine.old.media.frames ≤ frame }
        requires pairs { 4 * length machine.old.media.levels ≤ pairs }
    {
        let mut entries = Vec::with_capacity(alloc, entries)?;
        let mut pairs = Vec::with_capacity(alloc, pairs)?;
        let mut frame = Vec::with_capacity(alloc, frame)?;
        machine.drain_entries(&mut entries);
        machine.drain_pairs(&mut pairs);
        machine.drain_frames(&mut frame);
        self.entries.extend_from_slice(&entries)?;
        self.pairs.extend_from_slice(&pairs)?;
        self.frame = frame;
        Ok(())
    }

    /// Whether another made the same.
    pub(crate) fn is_alike(&self, other: &Made) -> bool {
        self.entries.as_slice() == other.entries.as_slice()
            && self.pairs.as_slice() == other.pairs.as_slice()
            && self.frame.as_slice() == other.frame.as_slice()
    }
}

/// The first and the last pair of samples that are not silent.
pub(crate) fn sounding(pairs: &[u8]) -> [usize; 2] {
    let mut sounding = [usize::MAX, 0];
    for (number, pair) in pairs.chunks_exact(4).enumerate() {
        if pair != [0u8; 4].as_slice() {
            sounding = [sounding[0].min(number), sounding[1].max(number)];
        }
    }
    sounding
}
