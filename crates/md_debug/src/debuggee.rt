ghost use Rattle.std.specs.Prelude.{◌≡◌, ℕ, ◌+◌, ◌<◌, ◌≤◌, [], ◌++◌, List, option_to_list, IfOk};
ghost use Rattle.md_word.specs.Clock.{frame, last_cycle};
ghost use Rattle.md_word.specs.declared.event.Entry.{Entry};
ghost use Rattle.md_chips.specs.Console.{IsRunTo};
ghost use Rattle.md_chips.specs.Media.{Media, no_media};
ghost use Rattle.md_chips.specs.Starts.{IsStart};
ghost use Rattle.md_debug.specs.Debuggees.{IsDebuggee, WentOn};
ghost use Rattle.md_debug.specs.Going.{RunsTo, Steps, StepsOnce, latest, least_of, start_of};

use crate::laws;
use circular_buffer::HeapCircularBuffer;
use md_machine::{Machine, laws as console_laws};
use md_word::NoMemory;
use md_word::clock::LAST_CYCLE;
use std::alloc::Global;

/// How many instructions are remembered.
const MOST_BEGUN: usize = 256;

/// A machine that continues step by step, whose output nobody keeps.
#[derive(Drop)]
pub(crate) struct Debuggee {
    pub machine: Machine,
    /// The addresses of the last instructions that were begun, oldest first.
    pub begun: HeapCircularBuffer<u32>,
}

impl Debuggee {
    /// A machine of which no instruction was begun yet. It fails only when memory runs out.
    pub fn make(alloc: Global, machine: Machine) -> Result<Debuggee, NoMemory>
        requires start { IsStart (start_of machine) }
        requires drained { (machine.entries ≡ []) × (machine.media ≡ no_media) }
        ensures machine { IfOk result (λ debuggee. debuggee.machine ≡ machine) }
        ensures begun { IfOk result (λ debuggee. debuggee.begun.items ≡ []) }
        ensures ready { IfOk result IsDebuggee }
    {
        let begun = HeapCircularBuffer::with_capacity(alloc, MOST_BEGUN)?;
        Ok(Debuggee { machine, begun })
    }

    /// Brings the machine to a cycle that is at most a frame of NTSC on, which is shorter than one of PAL.
    fn reach(&mut self, to: u64)
        requires ready { IsDebuggee self.old }
        requires later { self.old.machine.at < to }
        requires near { to ≤ self.old.machine.at + frame }
        requires far { to ≤ last_cycle }
        ensures at { self.new.machine.at ≡ to }
        ensures run { (entries : List Entry) × ((output : Media) × IsRunTo self.old.machine.console to self.new.machine.console entries output) }
        ensures begun { self.new.begun ≡ self.old.begun }
        ensures ready { IsDebuggee self.new }
    {
        console_laws::run_ends_at_start();
        self.machine.alone(to);
        self.machine.discard();
    }

    /// Does all events of the least cycle.
    fn go_on(&mut self)
        requires ready { IsDebuggee self.old }
        requires far { least_of self.old.machine.console < last_cycle }
        ensures went { WentOn self.old (least_of self.old.machine.console + 1) self.new }
    {
        laws::least_is_near();
        laws::one_begins();
        console_laws::parts_are_valid(&self.machine);
        let begins = self.machine.begins();
        let least = self.machine.least();
        self.reach(least + 1);
        self.note(begins);
    }

    /// Remembers an instruction, if one was begun.
    fn note(&mut self, begins: Option<u32>)
        requires { IsDebuggee self.old }
        ensures begun { self.new.begun.items ≡ latest (self.old.begun.items ++ option_to_list begins) }
        ensures machine { self.new.machine ≡ self.old.machine }
        ensures ready { IsDebuggee self.new }
    {
        if let Some(address) = begins {
            self.begun.push_back(address);
        }
    }

    /// Does all events of the least cycle, where that is below the last one.
    fn step_once(&mut self)
        requires ready { IsDebuggee self.old }
        ensures steps { (begun : List ℕ) × (StepsOnce (start_of self.old.machine) (start_of self.new.machine) begun × (self.new.begun.items ≡ latest (self.old.begun.items ++ begun))) }
        ensures ready { IsDebuggee self.new }
    {
        if self.machine.least() < LAST_CYCLE {
            self.go_on();
        }
    }

    /// Does the same so many times.
    pub fn step(&mut self, count: u32)
        requires ready { IsDebuggee self.old }
        ensures steps { (begun : List ℕ) × (Steps count (start_of self.old.machine) (start_of self.new.machine) begun × (self.new.begun.items ≡ latest (self.old.begun.items ++ begun))) }
        ensures ready { IsDebuggee self.new }
    {
        for index in 0..count {
            let _index = index;
            self.step_once();
        }
    }

    /// Does all events below a cycle, where the machine is not there yet.
    pub fn run_to(&mut self, end: u64)
        requires ready { IsDebuggee self.old }
        requires far { end ≤ last_cycle }
        ensures runs { (begun : List ℕ) × (RunsTo end (start_of self.old.machine) (start_of self.new.machine) begun × (self.new.begun.items ≡ latest (self.old.begun.items ++ begun))) }
        ensures ready { IsDebuggee self.new }
    {
        if self.machine.at() < end {
            self.go_to(end);
        }
    }

    /// Does all events below a cycle after the machine's own.
    fn go_to(&mut self, end: u64)
        requires ready { IsDebuggee self.old }
        requires later { self.old.machine.at < end }
        requires far { end ≤ last_cycle }
        ensures went { WentOn self.old end self.new }
    {
        laws::least_is_near();
        'events: while self.machine.least() < end {
            self.go_on();
        }
        if self.machine.at() < end {
            self.reach(end);
        }
    }
}
