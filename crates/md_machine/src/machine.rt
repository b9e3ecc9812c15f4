ghost use Rattle.std.specs.Prelude.{◌≡◌, ℕ, ◌≤◌, ◌<◌, ◌+◌, ◌-◌, [], length};
ghost use Rattle.std.specs.Arc.{arc_value};
ghost use Rattle.md_word.specs.Clock.{cycle_limit, last_cycle};
ghost use Rattle.md_word.specs.Region.{frame_cycles};
ghost use Rattle.chip_core.specs.Cores.{IsCore, machine_of};
ghost use Rattle.chip_core.specs.Machines.{IsQuiet};
ghost use Rattle.bus_shared.specs.Board.{IsBoard};
ghost use Rattle.md_chips.specs.Console.{AllBelow, IsRunTo, key_in, mover};
ghost use Rattle.md_chips.specs.Lists.{ListsEndAsRun};
ghost use Rattle.md_chips.specs.Regions.{IsOneRegion, most_entries, most_pairs};
ghost use Rattle.md_chips.specs.Machines.{machine_at};
ghost use Rattle.md_chips.specs.Rules.{IsChip, five};
ghost use Rattle.md_chips.specs.ValidParts.{HasValidParts};
ghost use Rattle.md_chips.specs.Media.{no_media};

use crate::runs::run_workers;
use bus_shared::Shared;
use chip_core::{Core, laws};
use md_chips::{MdChips, least_key, run_alone};
use md_outer::Gate;
use md_pads::Recording;
use md_word::{Key, NoMemory};
use rom_header::Cart;
use std::alloc::Global;
use std::marker::Model;
use std::sync::{Arc, Wait};
use std::thread::Threads;

/// The entries of a frame of a region at most: 52,500 or 62,600.
pub fn most_entries(pal: bool) -> usize
    ensures value { result ≡ most_entries pal }
    ensures few { result ≤ 62600 }
{
    if pal { 62_600 } else { 52_500 }
}

/// The pairs of samples of a frame of a region at most: 896 or 1,072.
pub fn most_pairs(pal: bool) -> usize
    ensures value { result ≡ most_pairs pal }
    ensures few { result ≤ 1072 }
{
    if pal { 1_072 } else { 896 }
}

/// A Mega Drive: five chips and the board that they share.
#[derive(Drop)]
pub struct Machine {
    pub(crate) at: u64,
    /// The core, which is away only while it runs.
    pub(crate) core: Option<Core<MdChips>>,
}

impl Model for Machine {
    ghost use Rattle.md_chips.specs.Machines.{MachineValue, IsMachine, core_held, machine_at};

    ghost Value = { MachineValue };

    ghost view = { λ m. machine_at m.at (core_held m.core) };

    ghost invariant = { λ m. IsMachine m.at m.core };
}

impl Machine {
    /// The cycle to which the machine was brought: all events below it are done, and no other.
    pub fn at(&self) -> u64
        ensures { result ≡ self.now.at }
    {
        self.at
    }

    /// Whether the machine is one for PAL: the board and the drawing half of the VDP are of one region.
    pub fn pal(&self) -> bool
        ensures value { result ≡ self.now.console.pal }
        ensures one { IsOneRegion self.now.console }
    {
        self.one_region();
        self.draw_chip().pal()
    }

    /// The board and the drawing half are of one region.
    fn one_region(&self)
        ensures { IsOneRegion self.now.console }
    {
        // what holds of each machine holds of its core
        let _ = &self.core;
    }

    /// The least cycle of a next event: that of the chip of least key.
    pub fn least(&self) -> u64
        ensures { result ≡ (key_in self.now.console (mover self.now.console)).cycle }
    {
        self.first_key().cycle
    }

    /// The key of the next event, which is the least.
    pub(crate) fn first_key(&self) -> Key
        ensures key { result ≡ key_in self.now.console (mover self.now.console) }
        ensures chip { result.chip ≡ mover self.now.console }
    {
        laws::stages::<MdChips>();
        least_key(self.core().chips())
    }

    /// From here on there are never more events below a cycle than cycles up to it, and chips.
    pub(crate) fn few_events(&self)
        ensures { (end n : ℕ) → end ≤ cycle_limit → AllBelow self.now.console end n → n ≤ end - self.now.at + 5 }
    {
        laws::stages::<MdChips>();
        laws::limits::<MdChips>();
        // what holds of each machine holds of its core
        let _ = &self.core;
    }

    /// Every list of enabled events from here leads to the machine of the run.
    pub(crate) fn lists_end_as_run(&self)
        ensures { ListsEndAsRun self.now.at self.now.console }
    {
        laws::stages::<MdChips>();
        laws::limits::<MdChips>();
        laws::events::<MdChips>();
        // what holds of each machine holds of its core
        let _ = &self.core;
    }

    /// Its parts are valid.
    pub(crate) fn valid_parts(&self)
        ensures { HasValidParts self.now.console }
    {
        laws::stages::<MdChips>();
        // what holds of each machine holds of its core
        let _ = &self.core;
    }

    /// Brings the machine to the cycle `to`, at most a frame on. It waits for nobody.
    pub fn alone(&mut self, to: u64)
        requires later { self.old.at < to }
        requires near { to ≤ self.old.at + frame_cycles self.old.console.pal }
        requires far { to ≤ last_cycle }
        requires entries { self.old.entries ≡ [] }
        requires media { self.old.media ≡ no_media }
        ensures at { self.new.at ≡ to }
        ensures run { IsRunTo self.old.console to self.new.console self.new.entries self.new.media }
        ensures entries { length self.new.entries ≤ most_entries self.old.console.pal }
        ensures frames { length self.new.media.frames ≤ 1 }
        ensures samples { length self.new.media.levels ≤ most_pairs self.old.console.pal }
        ensures region { self.new.console.pal ≡ self.old.console.pal }
    {
        if let Some(core) = self.core.take() {
            self.core = Some(run_alone(core, self.at, to));
            self.at = to;
        }
    }

    /// Brings the machine to the cycle `to`, at most a frame on, with so many workers, 1 to 5, of
    /// which the caller is the last. What it leaves is defined as for `alone`, without them.
    ///
    /// Each other worker is a thread of its own with the chip of its number. The caller serves the
    /// other chips, and with them the chip of each thread that the system refuses to start. A worker
    /// passes the gate before it looks for the turn of a chip. Lines of the picture may be drawn ahead of
    /// their events; one whose VDP is another by then is drawn again.
    pub fn segment<R: Threads + Wait + Sync, G: Gate>(
        &mut self,
        rt: &R,
        to: u64,
        workers: u32,
        gate: &G,
    )
        requires some { 1 ≤ workers }
        requires few { workers ≤ 5 }
        requires later { self.old.at < to }
        requires near { to ≤ self.old.at + frame_cycles self.old.console.pal }
        requires far { to ≤ last_cycle }
        requires entries { self.old.entries ≡ [] }
        requires media { self.old.media ≡ no_media }
        ensures at { self.new.at ≡ to }
        ensures run { IsRunTo self.old.console to self.new.console self.new.entries self.new.media }
        ensures entries { length self.new.entries ≤ most_entries self.old.console.pal }
        ensures frames { length self.new.media.frames ≤ 1 }
        ensures samples { length self.new.media.levels ≤ most_pairs self.old.console.pal }
        ensures region { self.new.console.pal ≡ self.old.console.pal }
    {
        if let Some(core) = self.core.take() {
            self.core = Some(run_workers(rt, core, self.at, to, workers, gate));
            self.at = to;
        }
    }

    /// Exchanges the recording of the pads. The buttons that are pressed stay until the next line after the
    /// picture.
    pub fn set_recording(&mut self, recording: Arc<Recording>)
        ensures { self.new ≡ record self.old { console = record self.old.console { shared = record self.old.console.shared { recording = arc_value recording } } } }
    {
        if let Some(core) = self.core.take() {
            self.core = Some(recorded(core, recording));
        }
    }

    /// The core.
    pub(crate) fn core(&self) -> &Core<MdChips>
        ensures value { machine_at self.now.at result.now ≡ self.now }
        ensures core { IsCore five IsChip IsBoard result.now }
        ensures quiet { IsQuiet five (machine_of five result.now) self.now.at }
    {
        match &self.core {
            Some(core) => core,
            None => unreachable!(),
        }
    }
}

/// The core with another recording of the pads.
fn recorded(core: Core<MdChips>, recording: Arc<Recording>) -> Core<MdChips>
    ensures value { result ≡ record core { shared = record core.shared { recording = arc_value recording } } }
    ensures core { IsCore five IsChip IsBoard result }
{
    let (shared, chips, bounds, journal) = core.into_parts();
    let mut shared = shared;
    shared.set_recording(recording);
    Core::make(shared, chips, bounds, journal)
}
