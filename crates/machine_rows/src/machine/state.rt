use crate::machine::image::{cartridge, image_of, put_text};
use crate::machine::made::Made;
use crate::machine::runs::{is_made_by, power_on, recording_of, run_to};
use core_rows::CoreFixture;
use core_rows::five::{self, Five};
use md_machine::{Machine, MdChips, first_core};
use row_lines::{RowError, bytes, number, readable};
use std::alloc::Global;
use std::sync::Wait;
use std::thread::Threads;

/// What a row has made so far.
#[derive(Drop)]
pub(crate) struct State {
    image: Vec<u8>,
    pads: Vec<u8>,
    pal: bool,
    machine: Option<Machine>,
    pub made: Made,
    pub five: CoreFixture<Five>,
    pub chips: CoreFixture<MdChips>,
}

/// A cycle of a machine.
fn cycle_of(text: &str) -> Result<u32, RowError> {
    readable(u32::try_from(number(text)?))
}

impl State {
    /// Nothing.
    pub(crate) fn new(alloc: Global) -> State {
        State {
            image: Vec::new(alloc),
            pads: Vec::new(alloc),
            pal: false,
            machine: None,
            made: Made::new(alloc),
            five: CoreFixture::new(),
            chips: CoreFixture::new(),
        }
    }

    /// Continues to the next row, with nothing of this one.
    pub(crate) fn clear(&mut self, alloc: Global) {
        self.image = Vec::new(alloc);
        self.pads = Vec::new(alloc);
        self.pal = false;
        self.machine = None;
        self.made = Made::new(alloc);
        self.five = CoreFixture::new();
        self.chips = CoreFixture::new();
    }

    /// Has a cartridge with a program.
    pub(crate) fn set_cart(&mut self, alloc: Global, text: &str) -> Result<(), RowError> {
        self.image = image_of(alloc, text)?;
        Ok(())
    }

    /// Changes bytes of the cartridge.
    pub(crate) fn put(&mut self, alloc: Global, text: &str) -> Result<(), RowError> {
        put_text(alloc, &mut self.image, text)?;
        Ok(())
    }

    /// Has a recording of the pads.
    pub(crate) fn set_pads(&mut self, alloc: Global, text: &str) -> Result<(), RowError> {
        self.pads = bytes(alloc, text)?;
        Ok(())
    }

    /// Switches a machine on, of a region.
    pub(crate) fn power(&mut self, alloc: Global, region: &str) -> Result<(), RowError> {
        self.pal = match region {
            "ntsc" => false,
            "pal" => true,
            _ => return Err(RowError::NoSuchLine),
        };
        self.machine = Some(power_on(alloc, &self.image, &self.pads, self.pal)?);
        Ok(())
    }

    /// The machine.
    pub(crate) fn machine(&self) -> Result<&Machine, RowError> {
        self.machine.as_ref().ok_or(RowError::NoSuchName)
    }

    /// Brings the machine to a cycle.
    pub(crate) fn run(&mut self, alloc: Global, to: &str) -> Result<(), RowError> {
        let to = cycle_of(to)?;
        match &mut self.machine {
            Some(machine) => run_to(alloc, machine, &mut self.made, to),
            None => Err(RowError::NoSuchName),
        }
    }

    /// Whether a machine like that of the row makes the same up to a cycle by so many workers.
    fn is_made<R: Threads + Wait + Sync>(
        &self,
        rt: &R,
        alloc: Global,
        to: u32,
        workers: u32,
    ) -> Result<bool, RowError> {
        let mut machine = power_on(alloc, &self.image, &self.pads, self.pal)?;
        if workers < 1 || workers > 5 {
            return Err(RowError::NoSuchLine);
        }
        is_made_by(rt, alloc, &mut machine, &self.made, to, workers)
    }

    /// The numbers of workers, 1 to 5, of which each makes what the row has made up to a cycle.
    pub(crate) fn workers<R: Threads + Wait + Sync>(
        &self,
        rt: &R,
        alloc: Global,
        to: &str,
    ) -> Result<String, RowError> {
        let to = cycle_of(to)?;
        let mut text = String::new(alloc);
        for workers in 1..6u32 {
            if self.is_made(rt, alloc, to, workers)? {
                text.push_str(&format!(in alloc; "{workers}")?)?;
            }
        }
        Ok(text)
    }

    /// Begins the core of the five chips with the row's cartridge.
    pub(crate) fn begin_chips(&mut self, alloc: Global) -> Result<(), RowError> {
        let cart = cartridge(alloc, &self.image)?;
        let recording = recording_of(alloc, &self.pads)?;
        match first_core(alloc, cart, recording, self.pal, 0) {
            Ok(core) => Ok(self.chips.begin(core)),
            Err(_) => Err(RowError::Memory),
        }
    }

    /// Begins the five small chips.
    pub(crate) fn begin_five(&mut self, alloc: Global) -> Result<(), RowError> {
        Ok(self.five.begin(five::power_on(alloc, 0)?))
    }
}
