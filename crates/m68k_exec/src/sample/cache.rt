ghost use Rattle.std.specs.Prelude.{◌≡◌, ℕ, List, IfOk, IfSome};
ghost use Rattle.m68k_access.specs.Clauses.{memory_of};
ghost use Rattle.m68k_exec.specs.Sample.Caches.{IsCacheOf, IsInstructionAt, entry_of, place_of};
ghost use Rattle.m68k_exec.specs.declared.sample.cache.CachedInstruction.{CachedInstruction};

use crate::Context;
use m68k_access::memory::{WORK_RAM, bus_address, instruction_words};
use m68k_decode::{Decoded, Op, decode_into};
use m68k_time::clocks;
use md_word::{Mode, NoMemory, Size, Spent, Task};
use std::alloc::Global;

/// How many entries a cache has.
const ENTRIES: usize = 4096;

/// An address in work RAM, whose instructions are in no cache.
const NOWHERE: u32 = 0xffff_ffff;

/// The instruction at an address, and its first word.
#[derive(Clone, Copy)]
pub struct CachedInstruction {
    pub address: u32,
    pub first: u16,
    /// What it takes where no branch is taken and nothing is counted.
    pub clocks: u8,
    /// It was not carried out at once when that was tried, and is not tried again.
    pub refused: bool,
    pub decoded: Decoded,
}

/// What an instruction met that took no branch and counted nothing.
const UNSPENT: Spent = Spent {
    taken: false,
    expired: false,
    count: 0,
    cause: 0,
    accesses: 0,
};

/// Decoded instructions of a cartridge, which never changes: each in the entry that its address names, so
/// that those of 8 KiB in a row are kept together.
#[derive(Drop)]
pub struct DecodeCache {
    pub entries: Box<[CachedInstruction; 4096]>,
}

/// The place of the entry of an address.
#[inline(always)]
fn place_of(address: u32) -> usize
    ensures { result ≡ place_of address }
{
    (address / 2 % 4096) as usize
}

/// The instruction at an address.
fn decode_at(address: u32, context: &Context) -> CachedInstruction
    ensures address { result.address ≡ address }
    ensures instruction { IsInstructionAt address (memory_of context.now) result }
{
    let words = instruction_words(address, context);
    let mut decoded = Decoded {
        op: Op::Nop,
        length: 2,
    };
    decode_into(&words, &mut decoded);
    CachedInstruction {
        address,
        first: words[0],
        clocks: clocks(&decoded.op, UNSPENT) as u8,
        refused: false,
        decoded,
    }
}

impl DecodeCache {
    /// A cache of no instruction. It takes 128 KiB, and fails only where memory runs out.
    pub fn empty(alloc: Global) -> Result<Self, NoMemory>
        ensures { (rom : List ℕ) → IfOk result (λ cache. IsCacheOf rom cache) }
    {
        // An array of zeros is made in its place on the heap, any other one on the stack first.
        let zeros = CachedInstruction {
            address: 0,
            first: 0,
            clocks: 0,
            refused: false,
            decoded: Decoded {
                op: Op::Immediate(Task::Abcd, Size::Byte, 0, Mode::Data(0)),
                length: 0,
            },
        };
        let nothing = CachedInstruction {
            address: NOWHERE,
            first: 0,
            clocks: 0,
            refused: false,
            decoded: Decoded {
                op: Op::Nop,
                length: 2,
            },
        };
        match Box::new(alloc, [zeros; ENTRIES]) {
            Ok(mut entries) => {
                entries.fill(nothing);
                Ok(DecodeCache { entries })
            }
            Err(_) => Err(NoMemory),
        }
    }

    /// Decodes the instruction at an address into its entry.
    #[inline(never)]
    fn decode(&mut self, address: u32, context: &Context)
        requires cache { IsCacheOf context.now.rom.now self.old }
        ensures cache { IsCacheOf context.now.rom.now self.new }
        ensures instruction { (blank : CachedInstruction) → IsInstructionAt address (memory_of context.now) (entry_of self.new address blank) }
    {
        self.entries[place_of(address)] = decode_at(address, context);
    }

    /// Has the instruction at an address in its entry.
    #[inline(always)]
    pub(crate) fn refresh(&mut self, address: u32, context: &Context)
        requires cache { IsCacheOf context.now.rom.now self.old }
        ensures cache { IsCacheOf context.now.rom.now self.new }
        ensures instruction { (blank : CachedInstruction) → IsInstructionAt address (memory_of context.now) (entry_of self.new address blank) }
    {
        let found = self.entries[place_of(address)].address;
        if found != address || bus_address(address) >= WORK_RAM - 10 {
            self.decode(address, context);
        }
    }

    /// The instruction at an address, which its entry has.
    #[inline(always)]
    pub(crate) fn entry(&self, address: u32, context: &Context) -> &CachedInstruction
        requires { (blank : CachedInstruction) → IsInstructionAt address (memory_of context.now) (entry_of self.now address blank) }
        ensures { IsInstructionAt address (memory_of context.now) result.now }
    {
        &self.entries[place_of(address)]
    }

    /// The instruction at an address in the cartridge, if its entry has it and it may be carried out at once.
    #[inline(always)]
    pub(crate) fn find(&self, address: u32, context: &Context) -> Option<&CachedInstruction>
        requires { IsCacheOf context.now.rom.now self.now }
        ensures { IfSome result (λ found. IsInstructionAt address (memory_of context.now) found.now) }
    {
        let found = &self.entries[place_of(address)];
        if found.address == address && bus_address(address) < WORK_RAM - 10 && !found.refused {
            Some(found)
        } else {
            None
        }
    }

    /// Notes that the instruction at an address is not to be tried at once again.
    #[inline(never)]
    pub(crate) fn note_refused(&mut self, address: u32)
        ensures { (rom : List ℕ) → IsCacheOf rom self.old → IsCacheOf rom self.new }
    {
        let place = place_of(address);
        let found = self.entries[place];
        self.entries[place] = CachedInstruction {
            refused: true,
            ..found
        };
    }
}
