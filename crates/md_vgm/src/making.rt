ghost use Rattle.std.specs.Prelude.{◌≡◌, ℕ, ◌+◌, ◌-◌, ◌*◌, ◌/◌, ◌^◌, ◌<◌, ◌≤◌, ◌++◌, ◌%◌, ◌⊎◌, List, [], ◌∷◌, OnOk, IfOk, IfErr, length, map, vec_len};
ghost use Rattle.std.specs.Option.{option_to_list};
ghost use Rattle.md_word.specs.declared.event.Entry.{Entry as Access};
ghost use Rattle.md_word.specs.declared.key.Key.{Key as Stamp};
ghost use Rattle.journal_sound.specs.Heard.{at_power_on};
ghost use Rattle.md_vgm.specs.Clocks as clocks;
ghost use Rattle.md_vgm.specs.Commands.{spelled_all, waits};
ghost use Rattle.md_vgm.specs.File as files;
ghost use Rattle.md_vgm.specs.File.{file_of};
ghost use Rattle.md_vgm.specs.Head.{head, with_length};
ghost use Rattle.md_vgm.specs.Journal.{entries};
ghost use Rattle.md_vgm.specs.Journal as grammar;
ghost use Rattle.md_vgm.specs.Outcomes.{Failed, IsMade, Made};
ghost use Rattle.md_vgm.specs.Playable.{IsPlayable};
ghost use Rattle.md_vgm.specs.Written.{command_at, sounds_from, sounds_of, timed_bytes};

use crate::clocks::time_of;
use crate::command::{Command, put_command, put_waits};
use crate::fault::VgmFault;
use crate::head::{put_head, set_length};
use crate::journal::{ENTRY, entry_at, right_bytes};
use journal_sound::{Hearing, SoundAccess};
use md_word::{Entry, NoMemory};
use std::alloc::Global;

/// The command at the end of the sound.
const END: u8 = 0x66;

/// The lower byte of a value.
fn low(value: u16) -> u8
    ensures { result ≡ value % 0x100 }
{
    (value % 0x100) as u8
}

/// The command for what an entry sends to the sound chips, where it is one.
fn command_of(reported: SoundAccess, hearing: &Hearing) -> Option<Command>
    ensures { (key : Stamp) → sounds_of key reported hearing.now ≡ map (command_at key.cycle) (option_to_list result) }
{
    match reported {
        SoundAccess::Psg(value) => Some(Command::Psg(low(value))),
        SoundAccess::Fm(0, _) | SoundAccess::Fm(2, _) => None,
        SoundAccess::Fm(1, value) => Some(Command::First(low(hearing.first), low(value))),
        SoundAccess::Fm(_, value) => Some(Command::Second(low(hearing.second), low(value))),
        SoundAccess::Reset | SoundAccess::Nothing => None,
    }
}

/// A file that is being made of a journal.
#[derive(Drop)]
struct Making {
    pal: bool,
    hearing: Hearing,
    /// The time of the last command.
    time: u32,
    file: Vec<u8>,
}

impl Making {
    /// With the header alone. The sound ends at a time. It fails where the host has no memory.
    fn begin(alloc: Global, pal: bool, end: u32) -> Result<Making, NoMemory>
        ensures pal { IfOk result (λ made. made.pal ≡ pal) }
        ensures start { IfOk result (λ made. (made.hearing ≡ at_power_on) × (made.time ≡ 0)) }
        ensures head { IfOk result (λ made. made.file.items ≡ head pal 0 end) }
        ensures length { IfOk result (λ made. vec_len made.file ≡ 64) }
    {
        let mut file = Vec::new(alloc);
        put_head(pal, end, &mut file)?;
        Ok(Making {
            pal,
            hearing: Hearing::power_on(),
            time: 0,
            file,
        })
    }

    /// Appends the command of an entry, where it has one, after a wait up to its time. It fails where the host
    /// has no memory.
    fn pass(&mut self, entry: &Entry) -> Result<(), NoMemory>
        requires low { entry.now.key.cycle < 2 ^ 39 }
        requires rising { self.old.time ≤ clocks.time_of self.old.pal entry.now.key.cycle }
        ensures pal { self.new.pal ≡ self.old.pal }
        ensures follows { OnOk result ((rest : List Access) (end : ℕ)
            → self.new.file.items ++ timed_bytes self.new.pal self.new.time (sounds_from self.new.hearing rest) end
            ≡ self.old.file.items ++ timed_bytes self.old.pal self.old.time (sounds_from self.old.hearing (entry.now ∷ rest)) end) }
        ensures time { OnOk result (self.new.time ≤ clocks.time_of self.old.pal entry.now.key.cycle) }
        ensures grows { OnOk result (vec_len self.old.file ≤ vec_len self.new.file) }
        ensures length { OnOk result (vec_len self.new.file + 3 * (self.old.time / 65535)
            ≤ vec_len self.old.file + 6 + 3 * (self.new.time / 65535)) }
    {
        let reported = self.hearing.reported(entry);
        match command_of(reported, &self.hearing) {
            Some(command) => self.put(command, time_of(self.pal, entry.key.cycle))?,
            None => {}
        }
        self.hearing.pass(entry, reported);
        Ok(())
    }

    /// Appends a command of some time. It fails where the host has no memory.
    fn put(&mut self, command: Command, time: u32) -> Result<(), NoMemory>
        requires { self.old.time ≤ time }
        ensures pal { self.new.pal ≡ self.old.pal }
        ensures hearing { self.new.hearing ≡ self.old.hearing }
        ensures time { OnOk result (self.new.time ≡ time) }
        ensures bytes { OnOk result (self.new.file.items
            ≡ self.old.file.items ++ spelled_all (waits (time - self.old.time) ++ command ∷ [])) }
        ensures grows { OnOk result (vec_len self.old.file ≤ vec_len self.new.file) }
        ensures length { OnOk result (vec_len self.new.file + 3 * (self.old.time / 65535)
            ≤ vec_len self.old.file + 6 + 3 * (time / 65535)) }
    {
        put_waits(time - self.time, &mut self.file)?;
        put_command(command, &mut self.file)?;
        self.time = time;
        Ok(())
    }

    /// Appends the wait up to the end and the end, and puts the length into the header. It fails where the
    /// host has no memory.
    fn finish(self, end: u32) -> Result<Vec<u8>, NoMemory>
        requires head { 64 ≤ vec_len self.file }
        requires short { vec_len self.file ≤ 0x2000000 }
        ensures bytes { IfOk result (λ file. file.items ≡ with_length (self.file.items ++ timed_bytes self.pal self.time [] end)) }
        ensures length { IfOk result (λ file. vec_len file ≤ vec_len self.file + 200000) }
    {
        let mut file = self.file;
        put_waits(end.saturating_sub(self.time), &mut file)?;
        file.push(END)?;
        set_length(&mut file);
        Ok(file)
    }
}

/// The time of the last entry.
fn end_of(journal: &[u8], pal: bool) -> u32
    requires { grammar.right_bytes journal.now ≡ length journal.now }
    ensures { result ≡ files.end_of pal 0 (entries journal.now) }
{
    let count = journal.len() / ENTRY;
    if count == 0 {
        return 0;
    }
    time_of(pal, entry_at(journal, ENTRY * (count - 1)).key.cycle)
}

/// The file of a journal. It fails where the host has no memory.
fn make(alloc: Global, journal: &[u8], pal: bool) -> Result<Vec<u8>, NoMemory>
    requires most { length journal.now ≤ 67108864 }
    requires right { grammar.right_bytes journal.now ≡ length journal.now }
    ensures file { IfOk result (λ file. file.items ≡ file_of pal (entries journal.now)) }
    ensures length { IfOk result (λ file. vec_len file ≤ 67108864) }
{
    let end = end_of(journal, pal);
    let mut making = Making::begin(alloc, pal, end)?;
    for index in 0..journal.len() / ENTRY {
        making.pass(&entry_at(journal, ENTRY * index))?;
    }
    making.finish(end)
}

/// Makes a VGM file of the sound writes of a journal from power-on, of at most 67,108,864 bytes. `pal` selects
/// the master clock: that of PAL, or else that of NTSC.
///
/// A journal is whole entries of 16 bytes. Each is of a kind that its chip has, at a cycle below 2^39; their
/// keys rise, and those of the 68000 are at least 28 cycles apart, those of the Z80 45. A journal is refused
/// (`Form`) at the offset of its first entry of which this fails. Memory is asked for only where it is not,
/// and `NoMemory` says that the host had none.
pub fn from_journal(alloc: Global, journal: &[u8], pal: bool) -> Result<Vec<u8>, VgmFault>
    requires { length journal.now ≤ 67108864 }
    ensures made { IfOk result (λ file. IsMade pal journal.now (Made file.items)) }
    ensures length { IfOk result (λ file. vec_len file ≤ 67108864) }
    // What is made is refused, when it is played, for its length alone.
    ensures playable { IfOk result (λ file. IsPlayable pal file.items) }
    // Memory can run out only where a file could be made.
    ensures fault { IfErr result (λ fault. IsMade pal journal.now (Failed fault)
        ⊎ ((fault ≡ VgmFault.NoMemory) × ((file : List ℕ) × IsMade pal journal.now (Made file)))) }
{
    let right = right_bytes(journal);
    if right < journal.len() {
        return Err(VgmFault::Form {
            place: right as u64,
        });
    }
    match make(alloc, journal, pal) {
        Ok(file) => Ok(file),
        Err(NoMemory) => Err(VgmFault::NoMemory),
    }
}
