ghost use Rattle.std.specs.Prelude.{◌≡◌, ◌≢◌, ◌↔◌, ℕ, ◌+◌, ◌<◌, ◌≤◌, [], ◌∷◌, length, vec_capacity, string_bytes, take, get_or, IfOk, IfErr, OnErr, Ok, Err};
ghost use Rattle.debug_text.specs.Commands.{command_of};
ghost use Rattle.debug_text.specs.declared.command.Command.{Command};
ghost use Rattle.debug_text.specs.declared.command.Command.TheVariants as commands;
ghost use Rattle.debug_text.specs.declared.command.Misread.TheVariants as misread;
ghost use Rattle.debug_text.specs.Replies.{address_reply, cycle_reply};
ghost use Rattle.circular_buffer.specs.Buffer.{keep_last};
ghost use Rattle.md_debug.specs.Kept.{padded, state_size};
ghost use Rattle.md_word.specs.Clock.{last_cycle};
ghost use Rattle.md_debug.specs.Going.{least_of};
ghost use Rattle.md_debug.specs.Keeping.{KeepsMachines, image_in};
ghost use Rattle.md_debug.specs.Sessions.{IsQuestion, IsWithinBounds, Keeps, Obeys, oldest_of, reply_to};

use crate::KeptStates;
use crate::debuggee::Debuggee;
use crate::fault::{DebugFault, refused};
use debug_text::{
    Command, address_reply, byte_reply, instruction_reply, put_cycle, read_command, register_reply,
    report_reply,
};
use md_machine::Machine;
use md_word::NoMemory;
use page_ring::{ImageFault, Images};
use std::alloc::Global;
use std::marker::Model;

/// The most bytes of the reply to a command that moves the machine.
const CYCLE_REPLY: usize = 24;

/// A machine that commands move forward and back, the states that it can go back to, and the instructions that
/// were begun last.
#[derive(Drop)]
pub struct Session<I: Images<Machine>> {
    images: I,
    debuggee: Debuggee,
    kept: KeptStates,
    alloc: Global,
}

impl<I: Images<Machine>> Model for Session<I> {
    ghost use Rattle.md_debug.specs.Keeping.{IsSession};
    ghost use Rattle.md_debug.specs.Sessions.{SessionValue};

    ghost Value = { SessionValue I };

    ghost view = { λ s. record { images = s.images; machine = s.debuggee.machine; states = s.kept.states; cycles = s.kept.cycles; begun = s.debuggee.begun.items } };

    ghost invariant = { λ s. IsSession (I.size s.images) (I.is_own s.images) (I.keeps s.images) (I.read_back s.images) s.debuggee s.kept };
}

impl<I: Images<Machine>> Session<I> {
    /// A session at a machine, whose state is kept. All its memory but that of images and replies is taken
    /// here. It fails only when memory runs out.
    pub fn make(alloc: Global, machine: Machine, images: I) -> Result<Session<I>, NoMemory>
        requires own { I.is_own images machine }
        requires keeps { KeepsMachines (I.is_own images) (I.read_back images) }
        requires fits { I.size images ≤ state_size }
        ensures images { IfOk result (λ session. session.images ≡ images) }
        ensures machine { IfOk result (λ session. session.machine ≡ machine) }
        ensures states { IfOk result (λ session. session.states ≡ padded (I.spelling images machine) ∷ []) }
        ensures cycles { IfOk result (λ session. session.cycles ≡ machine.at ∷ []) }
        ensures begun { IfOk result (λ session. session.begun ≡ []) }
    {
        let image = images.image(alloc, &machine)?;
        let at = machine.at();
        let mut kept = KeptStates::make(alloc)?;
        let debuggee = Debuggee::make(alloc, machine)?;
        kept.push(at, image.as_slice());
        Ok(Session {
            images,
            debuggee,
            kept,
            alloc,
        })
    }

    /// Obeys a line of a script, without its line feed, and returns the reply. It fails where the line is
    /// misread, where it goes back further than states are kept, or when memory runs out. Then the session is
    /// as before.
    pub fn obey(&mut self, line: &str) -> Result<Vec<u8>, DebugFault>
        ensures obeyed { IfOk result (λ reply. (command : Command) × ((command_of line.now ≡ Ok command) × (Obeys I.size I.spelling I.keeps self.old command self.new × (reply.items ≡ reply_to command self.new)))) }
        ensures fault { OnErr result (self.new ≡ self.old) }
        ensures unknown { (result ≡ Err DebugFault.UnknownWord) ↔ (command_of line.now ≡ Err misread.UnknownWord) }
        ensures number { (result ≡ Err DebugFault.BadNumber) ↔ (command_of line.now ≡ Err misread.BadNumber) }
        ensures not_kept { (oldest : ℕ) → (result ≡ Err (DebugFault.NotKept oldest)) ↔ ((n : ℕ) × ((command_of line.now ≡ Ok (commands.Back n)) × ((length self.old.states < n) × (oldest ≡ oldest_of self.old)))) }
    {
        match read_command(line) {
            Ok(command) => self.carry_out(command),
            Err(misread) => Err(refused(misread)),
        }
    }

    /// Carries a command out, and returns the reply. It fails where it goes back further than states are kept,
    /// or when memory runs out.
    fn carry_out(&mut self, command: Command) -> Result<Vec<u8>, DebugFault>
        requires { IsWithinBounds command }
        ensures obeyed { IfOk result (λ reply. Obeys I.size I.spelling I.keeps self.old command self.new × (reply.items ≡ reply_to command self.new)) }
        ensures fault { OnErr result (self.new ≡ self.old) }
        ensures known { (result ≢ Err DebugFault.UnknownWord) × (result ≢ Err DebugFault.BadNumber) }
        ensures not_kept { (oldest : ℕ) → (result ≡ Err (DebugFault.NotKept oldest)) ↔ ((n : ℕ) × ((command ≡ commands.Back n) × ((length self.old.states < n) × (oldest ≡ oldest_of self.old)))) }
    {
        match command {
            Command::Step(count) => Ok(self.step(count)?),
            Command::RunTo(end) => Ok(self.run_to(end)?),
            Command::Back(number) => self.back(number),
            Command::Regs
            | Command::Mem(..)
            | Command::Dis(..)
            | Command::Trace(_)
            | Command::Report => Ok(self.observable(command)?),
        }
    }

    /// Keeps the state, and steps so many times. It fails only when memory runs out.
    fn step(&mut self, count: u32) -> Result<Vec<u8>, NoMemory>
        ensures obeyed { IfOk result (λ reply. Obeys I.size I.spelling I.keeps self.old (commands.Step count) self.new) }
        ensures reply { IfOk result (λ reply. reply.items ≡ cycle_reply (least_of self.new.machine.console)) }
        ensures fault { OnErr result (self.new ≡ self.old) }
    {
        let reply = self.keep()?;
        self.debuggee.step(count);
        Ok(self.with_cycle(reply))
    }

    /// Keeps the state, and runs to a cycle. It fails only when memory runs out.
    fn run_to(&mut self, end: u64) -> Result<Vec<u8>, NoMemory>
        requires { end ≤ last_cycle }
        ensures obeyed { IfOk result (λ reply. Obeys I.size I.spelling I.keeps self.old (commands.RunTo end) self.new) }
        ensures reply { IfOk result (λ reply. reply.items ≡ cycle_reply (least_of self.new.machine.console)) }
        ensures fault { OnErr result (self.new ≡ self.old) }
    {
        let reply = self.keep()?;
        self.debuggee.run_to(end);
        Ok(self.with_cycle(reply))
    }

    /// Keeps the state, and returns room for a reply. It fails only when memory runs out.
    fn keep(&mut self) -> Result<Vec<u8>, NoMemory>
        ensures kept { IfOk result (λ reply. Keeps I.size I.spelling I.keeps self.old self.new) }
        ensures machine { self.new.machine ≡ self.old.machine }
        ensures begun { self.new.begun ≡ self.old.begun }
        ensures room { IfOk result (λ reply. (reply.items ≡ []) × (24 ≤ vec_capacity reply)) }
        ensures fault { OnErr result (self.new ≡ self.old) }
    {
        let image = self.images.image(self.alloc, &self.debuggee.machine)?;
        let reply = Vec::with_capacity(self.alloc, CYCLE_REPLY)?;
        let at = self.debuggee.machine.at();
        self.kept.push(at, image.as_slice());
        Ok(reply)
    }

    /// The reply with the cycle of the next event.
    fn with_cycle(&self, reply: Vec<u8>) -> Vec<u8>
        requires empty { reply.items ≡ [] }
        requires room { 24 ≤ vec_capacity reply }
        ensures { result.items ≡ cycle_reply (least_of self.now.machine.console) }
    {
        let mut reply = reply;
        put_cycle(self.debuggee.machine.least(), &mut reply);
        reply
    }

    /// Goes back to one of the kept states, 1 being the newest. It fails with `NotKept` where there are fewer,
    /// and else only when memory runs out.
    fn back(&mut self, number: u64) -> Result<Vec<u8>, DebugFault>
        requires { 1 ≤ number }
        ensures obeyed { IfOk result (λ reply. Obeys I.size I.spelling I.keeps self.old (commands.Back number) self.new) }
        ensures reply { IfOk result (λ reply. reply.items ≡ cycle_reply (least_of self.new.machine.console)) }
        ensures fault { OnErr result (self.new ≡ self.old) }
        ensures known { (result ≢ Err DebugFault.UnknownWord) × (result ≢ Err DebugFault.BadNumber) }
        ensures not_kept { (oldest : ℕ) → (result ≡ Err (DebugFault.NotKept oldest)) ↔ ((length self.old.states < number) × (oldest ≡ oldest_of self.old)) }
    {
        if number > u64::from(self.kept.count()) {
            return Err(DebugFault::NotKept {
                oldest: self.kept.oldest(),
            });
        }
        Ok(self.go_back(number as u32 - 1)?)
    }

    /// Goes back to the state that was kept so many states before the newest. It fails only when memory runs
    /// out.
    fn go_back(&mut self, newer: u32) -> Result<Vec<u8>, NoMemory>
        requires { newer < length self.old.states }
        ensures obeyed { IfOk result (λ reply. Obeys I.size I.spelling I.keeps self.old (commands.Back (newer + 1)) self.new) }
        ensures reply { IfOk result (λ reply. reply.items ≡ cycle_reply (least_of self.new.machine.console)) }
        ensures fault { OnErr result (self.new ≡ self.old) }
    {
        let reply = Vec::with_capacity(self.alloc, CYCLE_REPLY)?;
        let machine = self.kept_machine(newer)?;
        self.debuggee.machine = machine;
        self.kept.drop_newest(newer);
        Ok(self.with_cycle(reply))
    }

    /// The machine that was kept so many states before the newest. It fails only when memory runs out.
    fn kept_machine(&mut self, newer: u32) -> Result<Machine, NoMemory>
        requires { newer < length self.old.states }
        ensures session { self.new ≡ self.old }
        ensures keeps { IfOk result (λ machine. I.keeps self.old.images (image_in (I.size self.old.images) (get_or self.old.states newer [])) machine) }
        ensures own { IfOk result (λ machine. I.is_own self.old.images machine) }
    {
        self.kept.fetch(newer);
        let size = self.images.image_size();
        match self
            .images
            .machine(self.alloc, &self.kept.fetched()[..size])
        {
            Ok(machine) => Ok(machine),
            Err(ImageFault::NoMemory) => Err(NoMemory),
            Err(ImageFault::Form) => unreachable!(),
        }
    }

    /// The reply to a command that leaves the session as it is. It fails only when memory runs out.
    fn observable(&self, command: Command) -> Result<Vec<u8>, NoMemory>
        requires { IsQuestion command }
        ensures { IfOk result (λ reply. reply.items ≡ reply_to command self.now) }
    {
        let alloc = self.alloc;
        let machine = &self.debuggee.machine;
        let main = machine.main_chip();
        let rom = machine.cart().bytes();
        let reply = match command {
            Command::Regs => register_reply(alloc, main.regs())?,
            Command::Mem(at, count) => byte_reply(alloc, rom, main.ram(), at, count)?,
            Command::Dis(at, count) => instruction_reply(alloc, rom, main.ram(), at, count)?,
            Command::Trace(count) => self.trace(count)?,
            Command::Report => report_reply(alloc, machine.least(), main.regs())?,
            Command::Step(_) | Command::RunTo(_) | Command::Back(_) => unreachable!(),
        };
        Ok(reply.into_bytes())
    }

    /// The reply with the addresses of so many of the instructions that were begun last. It fails only when
    /// memory runs out.
    fn trace(&self, count: u32) -> Result<String, NoMemory>
        ensures { IfOk result (λ text. string_bytes text ≡ address_reply (keep_last count self.now.begun)) }
    {
        let begun = self.debuggee.begun.to_vec(self.alloc)?;
        let from = begun.len().saturating_sub(count as usize);
        address_reply(self.alloc, &begun.as_slice()[from..])
    }
}
