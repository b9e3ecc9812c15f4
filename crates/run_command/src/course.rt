ghost use Rattle.std.specs.Prelude.{◌*◌, ◌≤◌, vec_capacity};
ghost use Rattle.md_machine.specs.Outputs.{frame_length};
ghost use Rattle.md_chips.specs.Regions.{most_entries, most_pairs};

use md_machine::Machine;

/// A run on its way, with room for the records of a segment.
#[derive(Drop)]
pub struct Course {
    /// The machine, brought to the end of a segment.
    pub machine: Machine,
    /// How many accesses were made.
    pub accesses: u64,
    /// The last segment's frame, if it finished one.
    pub frames: Vec<u8>,
    /// The last segment's pairs of samples.
    pub pairs: Vec<u8>,
    /// The last segment's records of the journal.
    pub records: Vec<u8>,
    ghost frames_fit: { frame_length machine.console.pal ≤ vec_capacity frames },
    ghost pairs_fit: { 4 * most_pairs machine.console.pal ≤ vec_capacity pairs },
    ghost records_fit: { 16 * most_entries machine.console.pal ≤ vec_capacity records },
}
