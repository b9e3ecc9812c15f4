ghost use Rattle.std.specs.Prelude.{◌≡◌, ◌<◌, ◌+◌, ◌*◌, ◌≤◌, ◌++◌, [], IfSome, drop, length, option_copied, vec_len, vec_capacity};
ghost use Rattle.md_word.specs.Region.{picture_length};
ghost use Rattle.md_chips.specs.Lines.{frames_of};
ghost use Rattle.md_machine.specs.Outputs.{first_sums, frame_length, frames_bytes, journal_bytes, mixed_bytes, sample_bytes, sound_bytes};
ghost use Rattle.chip_core.specs.Cores.{CoreValue, IsCore};
ghost use Rattle.bus_shared.specs.Board.{Board, IsBoard};
ghost use Rattle.md_chips.specs.declared.chips.Chip.{Chip};
ghost use Rattle.md_chips.specs.Drained.{with_emptied};
ghost use Rattle.md_chips.specs.Machines.{machine_at};
ghost use Rattle.md_chips.specs.Media.{no_media};
ghost use Rattle.md_chips.specs.Rules.{IsChip, five};

use crate::machine::Machine;
use md_chips::{empty_chip, frame_in, levels_in, sides_in};
use md_files::{mix, ppm_head, put_entry, put_frame, put_pair};
use md_word::Entry;

impl Machine {
    /// Appends the journal's records of the accesses since the machine was last drained.
    pub fn drain_entries(&mut self, into: &mut Vec<u8>)
        requires { vec_len into.old + 16 * length self.old.entries ≤ vec_capacity into.old }
        ensures bytes { into.new.items ≡ into.old.items ++ journal_bytes self.old.entries }
        ensures length { vec_len into.new ≡ vec_len into.old + 16 * length self.old.entries }
        ensures machine { self.new ≡ record self.old { entries = [] } }
        ensures room { vec_capacity into.new ≡ vec_capacity into.old }
    {
        put_entries(self.core().journal(), into);
        self.clear_journal();
    }

    /// Appends the frame that was finished since the machine was last drained, with its header, if one was.
    pub fn drain_frames(&mut self, into: &mut Vec<u8>)
        requires { vec_len into.old + frame_length self.old.console.pal * length self.old.media.frames ≤ vec_capacity into.old }
        ensures bytes { into.new.items ≡ into.old.items ++ frames_bytes self.old.console.pal self.old.media.frames }
        ensures length { vec_len into.new ≡ vec_len into.old + frame_length self.old.console.pal * length self.old.media.frames }
        ensures machine { self.new ≡ record self.old { media = record self.old.media { frames = [] } } }
        ensures room { vec_capacity into.old ≤ vec_capacity into.new }
    {
        let pal = self.pal();
        put_frames(frame_in(&self.core().chips()[2]), pal, into);
        self.empty_renderer();
    }

    /// Appends the pairs of samples that were made since the machine was last drained.
    pub fn drain_pairs(&mut self, into: &mut Vec<u8>)
        requires { vec_len into.old + 4 * length self.old.media.levels ≤ vec_capacity into.old }
        ensures bytes { into.new.items ≡ into.old.items ++ sound_bytes self.old.media }
        ensures length { vec_len into.new ≡ vec_len into.old + 4 * length self.old.media.levels }
        ensures machine { self.new ≡ record self.old { media = record self.old.media { sides = []; levels = [] } } }
        ensures room { vec_capacity into.new ≡ vec_capacity into.old }
    {
        let chips = self.core().chips();
        put_pairs(levels_in(&chips[4]), sides_in(&chips[3]), into);
        self.empty_fm();
        self.empty_psg();
    }

    /// Drops all that was made since the machine was last drained: the journal's entries, the frame and the
    /// samples.
    pub fn discard(&mut self)
        ensures { self.new ≡ record self.old { entries = []; media = no_media } }
    {
        self.clear_journal();
        self.empty_renderer();
        self.empty_fm();
        self.empty_psg();
    }

    /// Drops the journal's entries.
    fn clear_journal(&mut self)
        ensures { self.new ≡ record self.old { entries = [] } }
    {
        if let Some(core) = &mut self.core {
            core.clear_journal();
        }
    }

    /// Drops the frame or the samples that the chip of a number keeps.
    fn empty(&mut self, number: usize)
        requires { number < 5 }
        ensures { (core : CoreValue Chip Board) × (machine_at self.old.at core ≡ self.old) × IsCore five IsChip IsBoard core
            × (self.new ≡ machine_at self.old.at (with_emptied core number)) }
    {
        if let Some(core) = &mut self.core {
            empty_chip(core, number);
        }
    }

    /// Drops the frame.
    fn empty_renderer(&mut self)
        ensures { self.new ≡ record self.old { media = record self.old.media { frames = [] } } }
    {
        self.empty(2);
    }

    /// Drops the FM synthesis' samples.
    fn empty_fm(&mut self)
        ensures { self.new ≡ record self.old { media = record self.old.media { sides = [] } } }
    {
        self.empty(3);
    }

    /// Drops the PSG's samples.
    fn empty_psg(&mut self)
        ensures { self.new ≡ record self.old { media = record self.old.media { levels = [] } } }
    {
        self.empty(4);
    }
}

/// Appends the records of entries.
fn put_entries(entries: &[Entry], into: &mut Vec<u8>)
    requires { vec_len into.old + 16 * length entries.now ≤ vec_capacity into.old }
    ensures bytes { into.new.items ≡ into.old.items ++ journal_bytes entries.now }
    ensures length { vec_len into.new ≡ vec_len into.old + 16 * length entries.now }
    ensures room { vec_capacity into.new ≡ vec_capacity into.old }
{
    for entry in entries {
        put_entry(entry, into);
    }
}

/// Appends a frame of a region with its header, where there is one.
#[tactic(auto, using(crate::specs::Outputs::a_length), unfolding(crate::specs::Outputs::frames_bytes))]
fn put_frames(frame: Option<&[u8]>, pal: bool, into: &mut Vec<u8>)
    requires size { IfSome (option_copied frame) (λ picture. length picture ≡ picture_length pal) }
    requires room { vec_len into.old + frame_length pal * length (frames_of (option_copied frame)) ≤ vec_capacity into.old }
    ensures bytes { into.new.items ≡ into.old.items ++ frames_bytes pal (frames_of (option_copied frame.entry)) }
    ensures length { vec_len into.new ≡ vec_len into.old + frame_length pal * length (frames_of (option_copied frame.entry)) }
    ensures room { vec_capacity into.old ≤ vec_capacity into.new }
{
    if let Some(picture) = frame {
        ppm_head(pal, into);
        put_frame(picture, into);
    }
}

/// Appends the pairs of samples: each level with the sums of the same number, or with silence where there
/// are none.
fn put_pairs(levels: &[i32], sides: &[(i32, i32)], into: &mut Vec<u8>)
    requires { vec_len into.old + 4 * length levels.now ≤ vec_capacity into.old }
    ensures bytes { into.new.items ≡ into.old.items ++ mixed_bytes levels.now sides.now }
    ensures length { vec_len into.new ≡ vec_len into.old + 4 * length levels.now }
    ensures room { vec_capacity into.new ≡ vec_capacity into.old }
{
    let mut sides = sides;
    let mut levels = levels;
    while let [level, later @ ..] = levels {
        put_pair_of(next_sums(&mut sides), level, into);
        levels = later;
    }
}

/// The sums of the first sample, which are taken off; silence where there is none.
fn next_sums(sides: &mut &[(i32, i32)]) -> (i32, i32)
    ensures sums { result ≡ first_sums sides.old.now }
    ensures rest { sides.new.now ≡ drop 1 sides.old.now }
{
    match *sides {
        [first, later @ ..] => {
            *sides = later;
            *first
        }
        [] => (0, 0),
    }
}

fn put_pair_of(sums: (i32, i32), level: &i32, into: &mut Vec<u8>)
    requires { vec_len into.old + 4 ≤ vec_capacity into.old }
    ensures bytes { into.new.items ≡ into.old.items ++ sample_bytes sums level.now }
    ensures length { vec_len into.new ≡ vec_len into.old + 4 }
    ensures room { vec_capacity into.new ≡ vec_capacity into.old }
{
    let (left, right) = mix(sums, *level);
    put_pair(left, right, into);
}
