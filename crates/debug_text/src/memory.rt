ghost use Rattle.std.specs.Prelude.{◌≡◌, ◌<◌, ◌≤◌, ◌%◌, ◌^◌, ◌==◌, if◌then◌else◌, [], codes, string_bytes, IfOk};
ghost use Rattle.m68k_access.specs.Memory as seen;
ghost use Rattle.md_disasm.specs.Appends.{Appends};
ghost use Rattle.debug_text.specs.Replies as replies;

use m68k_access::memory::{RAM_SIZE, WORK_RAM, word_at};
use m68k_decode::{Decoded, decode};
use md_disasm::{put_marked_byte, put_marked_long, text68};
use md_word::NoMemory;
use std::alloc::Global;

/// The address bus has 24 bits.
const ADDRESSES: u32 = 0x100_0000;

/// The byte that is read where nothing answers.
const OPEN_BUS: u8 = 0xff;

/// The byte that the 68000 sees at an address without an access that it shares: of the cartridge or
/// of work RAM, and FFh elsewhere.
#[tactic(auto, unfolding(m68k_access::specs::Memory::byte_at))]
fn byte_at(rom: &[u8], ram: &[u8; RAM_SIZE], address: u32) -> u8
    ensures { result ≡ seen.byte_at rom.now ram.now (seen.bus_address address) }
{
    let at = address % ADDRESSES;
    if at >= WORK_RAM {
        ram[at as usize % RAM_SIZE]
    } else if (at as usize) < rom.len() {
        rom[at as usize]
    } else {
        OPEN_BUS
    }
}

/// The word of an instruction at an even address.
#[tactic(auto, unfolding(m68k_access::specs::Memory::instruction_word))]
fn instruction_word(rom: &[u8], ram: &[u8; RAM_SIZE], address: u32) -> u16
    requires { address % 2 ≡ 0 }
    ensures { result ≡ seen.instruction_word address (replies.memory_of rom.now ram.now) }
{
    word_at(address % ADDRESSES, rom, ram)
}

/// The instruction at an even address.
#[tactic(auto, unfolding(m68k_access::specs::Memory::instruction_words))]
fn instruction_at(rom: &[u8], ram: &[u8; RAM_SIZE], at: u32) -> Decoded
    requires even { at % 2 ≡ 0 }
    requires bus { at < 2 ^ 24 }
    ensures value { result ≡ replies.instruction_at rom.now ram.now at }
    ensures length { (result.length % 2 ≡ 0) × (result.length ≤ 10) }
{
    let words = [
        instruction_word(rom, ram, at),
        instruction_word(rom, ram, at + 2),
        instruction_word(rom, ram, at + 4),
        instruction_word(rom, ram, at + 6),
        instruction_word(rom, ram, at + 8),
    ];
    decode(&words)
}

/// Appends the line of the instruction at an even address. It fails only when memory runs out.
fn put_instruction(alloc: Global, text: &mut String, op: &Decoded, at: u32) -> Result<(), NoMemory>
    ensures { Appends result (string_bytes text.old) (string_bytes text.new) (replies.instruction_line op.now at) }
{
    let name = text68(alloc, op, at)?;
    put_marked_long(text, "", at, " ")?;
    text.push_str(name.as_str())?;
    text.push_str("\n")
}

/// What is before a byte of a reply, by its number.
fn gap(index: u32) -> &'static str
    ensures { result.now ≡ (if index == 0 then [] else codes " ") }
{
    if index == 0 { "" } else { " " }
}

/// The reply with bytes as the 68000 sees them, from an address on: two digits each, with spaces between them.
/// It fails only when memory runs out.
pub fn byte_reply(
    alloc: Global,
    rom: &[u8],
    ram: &[u8; RAM_SIZE],
    at: u32,
    count: u32,
) -> Result<String, NoMemory>
    requires bus { at < 2 ^ 24 }
    requires few { count < 2 ^ 24 }
    ensures { IfOk result (λ text. string_bytes text ≡ replies.byte_reply rom.now ram.now at count) }
{
    let mut text = String::new(alloc);
    for index in 0..count {
        put_marked_byte(&mut text, gap(index), byte_at(rom, ram, at + index), "")?;
    }
    text.push_str("\n")?;
    Ok(text)
}

/// The reply with instructions from an even address on, each after its address; the next one is where it ends.
/// It fails only when memory runs out.
pub fn instruction_reply(
    alloc: Global,
    rom: &[u8],
    ram: &[u8; RAM_SIZE],
    at: u32,
    count: u32,
) -> Result<String, NoMemory>
    requires even { at % 2 ≡ 0 }
    requires bus { at < 2 ^ 24 }
    ensures { IfOk result (λ text. string_bytes text ≡ replies.instruction_reply rom.now ram.now at count) }
{
    let mut text = String::new(alloc);
    let mut here = at;
    for index in 0..count {
        let _index = index;
        let op = instruction_at(rom, ram, here);
        put_instruction(alloc, &mut text, &op, here)?;
        here = (here + u32::from(op.length)) % ADDRESSES;
    }
    Ok(text)
}
