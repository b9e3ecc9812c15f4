ghost use Rattle.std.specs.Prelude.{◌≡◌, ◌≢◌, ◌↔◌, ◌+◌, ◌*◌, ◌^◌, ◌<◌, ◌≤◌, ◌++◌, ℕ, true, List, [], length, map, vec_len, vec_capacity, IfErr, IfOk, IsErrOf, Ok, Err};
ghost use Rattle.md_word.specs.Clock.{cycle_limit};
ghost use Rattle.fm_port.specs.Port.{IsPort, Port};
ghost use Rattle.fm_port.specs.Timed.{AreTimed};
ghost use Rattle.fm_port.specs.PortSpelling as meaning;
ghost use Rattle.fm_port.specs.PortSpelling.{PortInvalidAt, SpellsPort, port_bytes, port_size, settled_port};
ghost use Rattle.fm_port.specs.declared.write.FmWrite.{FmWrite as Write};

use crate::port::FmPort;
use crate::saved_port::SavedPort;
use crate::saved_write::{SavedWrite, WRITE};
use crate::timers::Timers;
use crate::write::FmList;
use md_fields::{first_invalid, put, u16_at};
use md_word::Unspell;
use sound_writes::{MOST, are_saved, known_writes, put_count, put_writes, put_zeros, read_writes};
use std::alloc::Global;

/// How many bytes of a saved state keep a port.
pub const PORT_SIZE: usize = 12_316;

/// The offset of the number of the writes, after latches and timers.
pub const COUNT_OFFSET: usize = 26;

/// The offset of the writes.
const ENTRIES_OFFSET: usize = 28;

impl FmPort {
    /// Appends the bytes of a saved state at a cycle, of at most 2^50, that keep this port, `PORT_SIZE`: the
    /// overflows of its timers below the cycle are made there. There is room for them. Where its rules
    /// hold at the cycle, the bytes keep the port that is settled there.
    pub fn spell(&self, at: u64, into: &mut Vec<u8>)
        requires cycle { at ≤ cycle_limit }
        requires room { vec_len into.old + port_size ≤ vec_capacity into.old }
        ensures bytes { into.new.items ≡ into.old.items ++ port_bytes (settled_port at self.now) }
        ensures length { vec_len into.new ≡ vec_len into.old + port_size }
        ensures room { vec_capacity into.old ≤ vec_capacity into.new }
        ensures kept { AreTimed at self.now.timers → meaning.are_right at (map meaning.saved_write_of self.now.writes) ≡ true
            → SpellsPort at (port_bytes (settled_port at self.now)) (settled_port at self.now) }
    {
        self.is_read_again(at);
        let mut timers = self.timers;
        timers.settle(at);
        let count = self.writes.len();
        let numbers = numbers_of(self.first, self.second, &timers);
        put(&numbers.fields(at), into);
        put_count(count as u16, into);
        put_writes::<SavedWrite>(self.writes.as_slice(), into);
        put_zeros(WRITE * (MOST - count), into);
    }

    /// The bytes of this port, settled to a cycle of at most 2^50, are read again where its rules
    /// hold there.
    pub fn is_read_again(&self, at: u64)
        requires { at ≤ cycle_limit }
        ensures { AreTimed at self.now.timers → meaning.are_right at (map meaning.saved_write_of self.now.writes) ≡ true
            → SpellsPort at (port_bytes (settled_port at self.now)) (settled_port at self.now) }
    {
        let mut timers = self.timers;
        timers.settle(at);
        let numbers = numbers_of(self.first, self.second, &timers);
        known_numbers(&numbers);
        known_writes::<SavedWrite>(self.writes.as_slice());
    }

    /// The port that the bytes of a saved state at a cycle, at most 2^50, keep. It takes no memory, and
    /// fails with `Rule` alone. Bytes that are not 12,316 are refused at the lesser of their number and
    /// that, others at the offset of the first field whose rule fails. A timer's run is its bit of
    /// register 27; its next overflow is less than the longest period after the cycle, or is 0 where it
    /// is stopped; flags are 0 or 1.
    ///
    /// Count and writes are refused at `COUNT_OFFSET`. There may be at most 1,024, each for a port or a reset, which
    /// is the 68000's and has no register and no value; an unused place is 0. Their keys are the two
    /// processors', rise, are from the last batch before the cycle on and below the cycle, and are at
    /// least 28 cycles apart for the 68000 and 45 for the Z80.
    pub fn unspell(_alloc: Global, bytes: &[u8], at: u64) -> Result<FmPort, Unspell>
        requires { at ≤ cycle_limit }
        ensures found { IfOk result (λ port. SpellsPort at bytes.now port) }
        ensures only { (port : Port) → SpellsPort at bytes.now port → result ≡ Ok port }
        ensures rule { (place : ℕ) → IsErrOf result (Unspell.Rule place) ↔ PortInvalidAt at bytes.now place }
        ensures memory { result ≢ Err Unspell.NoMemory }
    {
        let mut port = FmPort::power_on();
        match port.restore(bytes, at) {
            Ok(()) => Ok(port),
            Err(fault) => Err(fault),
        }
    }

    /// Makes this port the one that the bytes keep, in its place, and refuses them as `unspell` does. It
    /// holds no write after a refusal.
    pub fn restore(&mut self, bytes: &[u8], at: u64) -> Result<(), Unspell>
        requires { at ≤ cycle_limit }
        ensures found { IfOk result (λ nothing. SpellsPort at bytes.now self.new) }
        ensures only { (port : Port) → SpellsPort at bytes.now port → (result ≡ Ok tt) × (self.new ≡ port) }
        ensures rule { (place : ℕ) → IsErrOf result (Unspell.Rule place) ↔ PortInvalidAt at bytes.now place }
        ensures memory { result ≢ Err Unspell.NoMemory }
        ensures empty { IfErr result (λ fault. self.new.writes ≡ []) }
        ensures port { IsPort self.new }
    {
        match parts_of(bytes, at, &mut self.writes) {
            Ok(saved) => {
                self.first = saved.first;
                self.second = saved.second;
                self.timers = saved.timers();
                Ok(())
            }
            Err(place) => {
                self.writes.clear();
                Err(Unspell::Rule {
                    place: place as u64,
                })
            }
        }
    }
}

/// Makes a list the writes that the bytes keep, and answers latches and timers, where the rules hold; else
/// the offset of the refusal.
fn parts_of(bytes: &[u8], at: u64, into: &mut FmList) -> Result<SavedPort, usize>
    ensures found { IfOk result (λ saved. SpellsPort at bytes.now (meaning.port_with saved into.new.items)) }
    ensures refused { IfErr result (λ place. PortInvalidAt at bytes.now place) }
{
    if bytes.len() != PORT_SIZE {
        return Err(bytes.len().min(PORT_SIZE));
    }
    let numbers = SavedPort::read(bytes);
    if let Some(place) = first_invalid(&numbers.fields(at)) {
        return Err(place);
    }
    let count = usize::from(u16_at(bytes, COUNT_OFFSET));
    let entries = &bytes[ENTRIES_OFFSET..PORT_SIZE];
    if !are_saved::<SavedWrite>(entries, count, at) {
        return Err(COUNT_OFFSET);
    }
    read_writes::<SavedWrite>(entries, count, into);
    Ok(numbers)
}

/// What is kept of latches and timers.
fn numbers_of(first: u8, second: u8, timers: &Timers) -> SavedPort
    ensures { (writes : List Write) → result ≡ meaning.saved_numbers (record { first = first; second = second; timers = timers.now; writes = writes }) }
{
    SavedPort {
        first,
        second,
        high_a: timers.high_a,
        low_a: timers.low_a,
        number_b: timers.number_b,
        control: timers.control,
        run_a: u8::from(timers.a.run),
        next_a: timers.a.next,
        run_b: u8::from(timers.b.run),
        next_b: timers.b.next,
        flag_a: u8::from(timers.a.flag),
        flag_b: u8::from(timers.b.flag),
    }
}

/// Each number that is more than a bit fits its field.
fn known_numbers(numbers: &SavedPort)
    ensures first { numbers.now.first < 2 ^ 8 }
    ensures second { numbers.now.second < 2 ^ 8 }
    ensures high_a { numbers.now.high_a < 2 ^ 8 }
    ensures low_a { numbers.now.low_a < 2 ^ 8 }
    ensures number_b { numbers.now.number_b < 2 ^ 8 }
    ensures control { numbers.now.control < 2 ^ 8 }
    ensures next_a { numbers.now.next_a < 2 ^ 64 }
    ensures next_b { numbers.now.next_b < 2 ^ 64 }
{
    let _first = numbers.first;
    let _second = numbers.second;
    let _high_a = numbers.high_a;
    let _low_a = numbers.low_a;
    let _number_b = numbers.number_b;
    let _control = numbers.control;
    let _next_a = numbers.next_a;
    let _next_b = numbers.next_b;
}
