ghost use Rattle.std.specs.Prelude.{◌≡◌, ◌≤◌, ℕ, List, length, replicate, IfOk, IfSome};
ghost use Rattle.z80_exec.specs.Sample.Caches.{IsCache, IsEntry, IsInstructionOf};
ghost use Rattle.z80_exec.specs.Sample.Samples as samples;

use super::times::time_of;
use md_word::NoMemory;
use std::alloc::Global;
use std::marker::Model;
use z80_decode::{Decoded80, Op80, decode};

/// How many entries a cache has.
const ENTRIES: usize = 256;

/// The instruction of four bytes, with what its fetch and its end take from it.
#[derive(Clone, Copy)]
pub struct CachedInstruction {
    /// The bytes as a number, the first the lowest.
    pub bytes: u32,
    pub decoded: Decoded80,
    /// How much R rises.
    pub rise: u8,
    /// The clocks, and where there are two times the shorter.
    pub short: u32,
    /// The longer.
    pub long: u32,
}

/// Instructions of the Z80 that were decoded, each with the bytes that it was decoded from, so that no write makes
/// one wrong: one for each low byte of an address. It takes 7 KiB. Contracts see nothing of it.
#[derive(Drop)]
pub struct DecodeCache80 {
    entries: Box<[CachedInstruction; 256]>,
}

impl Model for DecodeCache80 {
    ghost use Rattle.z80_exec.specs.Sample.Caches.{IsCache};

    ghost Value = { Unit {0} };

    ghost view = { λ cache. tt };

    ghost invariant = { λ cache. IsCache cache.entries.value };
}

/// Whether a byte begins an instruction of more than one opcode.
fn is_prefix(byte: u8) -> bool
    ensures { result ≡ samples.is_prefix byte }
{
    matches!(byte, 0xcb | 0xdd | 0xed | 0xfd)
}

/// How much R rises for an instruction, by its first byte: with a prefix by 2, else by 1.
fn rise_of(op: Op80, first: u8) -> u8
    ensures value { result ≡ samples.rise_of op first }
    ensures most { result ≤ 2 }
{
    let prefixed = if is_prefix(first) { 2 } else { 1 };
    match op {
        Op80::LonePrefix(_) => 1,
        _ => prefixed,
    }
}

/// The instruction of four bytes.
#[inline(never)]
pub(crate) fn cached(bytes: &[u8; 4]) -> CachedInstruction
    ensures number { IsEntry result }
    ensures instruction { IsInstructionOf bytes.now result }
{
    let decoded = decode(bytes);
    CachedInstruction {
        bytes: u32::from_le_bytes(*bytes),
        decoded,
        rise: rise_of(decoded.op, bytes[0]),
        short: time_of(decoded.op, false),
        long: time_of(decoded.op, true),
    }
}

impl DecodeCache80 {
    /// A cache with the instruction of four bytes 0 at each place. It is refused where there is no memory for it.
    pub fn empty(alloc: Global) -> Result<Self, NoMemory> {
        let entries = Box::new(alloc, [cached(&[0; 4]); ENTRIES])?;
        Ok(DecodeCache80 { entries })
    }

    /// The instruction of the four bytes at an address: the one that was decoded there last, where its bytes are the
    /// same.
    #[inline(always)]
    pub(crate) fn instruction(&mut self, address: u16, bytes: &[u8; 4]) -> CachedInstruction
        ensures { IsInstructionOf bytes.now result }
    {
        let place = usize::from(address % 256);
        let found = self.entries[place];
        if found.bytes == u32::from_le_bytes(*bytes) {
            return found;
        }
        let fresh = cached(bytes);
        self.entries[place] = fresh;
        fresh
    }

    /// The instruction that was decoded last at an address, if its bytes are these.
    #[inline(always)]
    pub(crate) fn find(&self, address: u16, bytes: &[u8; 4]) -> Option<&CachedInstruction>
        ensures { IfSome result (λ found. IsInstructionOf bytes.now found.now) }
    {
        let found = &self.entries[usize::from(address % 256)];
        if found.bytes == u32::from_le_bytes(*bytes) {
            Some(found)
        } else {
            None
        }
    }
}
