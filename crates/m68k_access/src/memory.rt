ghost use Rattle.std.specs.Prelude.{◌≡◌, ◌+◌, ◌<◌, ◌≤◌, ◌%◌, length, slice_index};
ghost use Rattle.arrayvec.specs.ArrayVec.{array_vec_len};
ghost use Rattle.m68k_access.specs.Actions as actions;
ghost use Rattle.m68k_access.specs.Clauses.{SpendsAtMost, done_of, memory_of};
ghost use Rattle.m68k_access.specs.Memory as memory;

use crate::{Context, Progress};

/// The first address of the work RAM, which is repeated up to the last address.
pub const WORK_RAM: u32 = 0xe0_0000;

/// How many bytes work RAM has.
pub const RAM_SIZE: usize = 65_536;

/// The byte that is read where nothing answers.
const OPEN_BUS: u8 = 0xff;

/// The address on the bus, of 24 bits.
pub fn bus_address(address: u32) -> u32
    ensures value { result ≡ memory.bus_address address }
    ensures below { result < 0x100_0000 }
    ensures parity { result % 2 ≡ address % 2 }
{
    address % 0x100_0000
}

/// A byte outside the shared addresses, before the instruction.
#[tactic(auto, unfolding(crate::specs::Memory::byte_at))]
pub fn byte_at(at: u32, rom: &[u8], ram: &[u8; RAM_SIZE]) -> u8
    ensures { result ≡ memory.byte_at rom.now ram.now at }
{
    if at >= WORK_RAM {
        ram[at as usize % RAM_SIZE]
    } else if (at as usize) < rom.len() {
        rom[at as usize]
    } else {
        OPEN_BUS
    }
}

/// A word outside the shared addresses, before the instruction.
#[tactic(auto, unfolding(crate::specs::Memory::word_at))]
pub fn word_at(at: u32, rom: &[u8], ram: &[u8; RAM_SIZE]) -> u16
    requires { at < 0x100_0000 }
    ensures { result ≡ memory.word_at rom.now ram.now at }
{
    u16::from(byte_at(at, rom, ram)) * 0x100 + u16::from(byte_at(at + 1, rom, ram))
}

/// A word of an instruction, which is no access: at an odd address FFFFh.
#[tactic(auto, unfolding(crate::specs::Memory::instruction_word))]
fn instruction_word(address: u32, context: &Context) -> u16
    ensures { result ≡ memory.instruction_word address (memory_of context.now) }
{
    if address % 2 == 0 {
        word_at(bus_address(address), context.rom, context.ram)
    } else {
        0xffff
    }
}

/// A word of an instruction that lies in the cartridge.
#[tactic(auto, unfolding(crate::specs::Memory::instruction_word, crate::specs::Memory::word_at, crate::specs::Memory::byte_at))]
fn cartridge_word(address: u32, context: &Context) -> u16
    requires even { address % 2 ≡ 0 }
    requires below { address % 0x100_0000 + 1 < 0xe0_0000 }
    requires within { address % 0x100_0000 + 1 < length context.now.rom.now }
    ensures { result ≡ memory.instruction_word address (memory_of context.now) }
{
    let at = bus_address(address) as usize;
    u16::from(context.rom[at]) * 0x100 + u16::from(context.rom[at + 1])
}

/// As many words as the longest instruction has, from an address on. None is an access; at an odd
/// address, and outside the cartridge and work RAM, each is FFFFh.
#[tactic(auto, unfolding(crate::specs::Memory::instruction_words))]
pub fn instruction_words(address: u32, context: &Context) -> [u16; 5]
    ensures { result ≡ memory.instruction_words address (memory_of context.now) }
{
    let at = bus_address(address);
    if address % 2 == 0 && at < WORK_RAM - 10 && (at as usize) + 10 <= context.rom.len() {
        [
            cartridge_word(address, context),
            cartridge_word(address.wrapping_add(2), context),
            cartridge_word(address.wrapping_add(4), context),
            cartridge_word(address.wrapping_add(6), context),
            cartridge_word(address.wrapping_add(8), context),
        ]
    } else {
        [
            instruction_word(address, context),
            instruction_word(address.wrapping_add(2), context),
            instruction_word(address.wrapping_add(4), context),
            instruction_word(address.wrapping_add(6), context),
            instruction_word(address.wrapping_add(8), context),
        ]
    }
}

/// A byte of work RAM as these writes have left it: the latest counts.
fn ram_byte(at: u32, ram: &[u8; RAM_SIZE], writes: &[(u32, u8)]) -> u8
    ensures { result ≡ slice_index (memory.ram_after ram.now writes.now) (memory.ram_place at) }
{
    let place = at as usize % RAM_SIZE;
    let mut byte = ram[place];
    'writes: for (written, value) in writes {
        if *written as usize % RAM_SIZE == place {
            byte = *value;
        }
    }
    byte
}

/// What a private read of a byte sees, with the instruction's own writes.
#[tactic(auto, unfolding(crate::specs::Actions::byte_seen, crate::specs::Memory::byte_at))]
pub(crate) fn byte_seen(at: u32, context: &Context, progress: &Progress) -> u8
    ensures { result ≡ actions.byte_seen at (memory_of context.now) (done_of progress.now) }
{
    if at >= WORK_RAM {
        ram_byte(at, context.ram, progress.writes.as_slice())
    } else {
        byte_at(at, context.rom, context.ram)
    }
}

/// What a private read of a word sees, with the instruction's own writes.
#[tactic(auto, unfolding(crate::specs::Actions::word_seen, crate::specs::Actions::byte_seen, crate::specs::Memory::word_at))]
pub(crate) fn word_seen(at: u32, context: &Context, progress: &Progress) -> u16
    requires { at < 0x100_0000 }
    ensures { result ≡ actions.word_seen at (memory_of context.now) (done_of progress.now) }
{
    let high = byte_seen(at, context, progress);
    let low = byte_seen(at + 1, context, progress);
    u16::from(high) * 0x100 + u16::from(low)
}

/// Notes a private write of a byte, which is lost outside work RAM.
#[tactic(auto, unfolding(crate::specs::Actions::with_byte))]
pub(crate) fn put_byte(at: u32, value: u8, progress: &mut Progress)
    requires { array_vec_len progress.old.writes + 1 ≤ 80 }
    ensures value { done_of progress.new ≡ actions.with_byte at value (done_of progress.old) }
    ensures spent { SpendsAtMost progress.old progress.new 0 1 }
{
    if at >= WORK_RAM {
        progress.writes.push((at, value));
    }
}

/// Notes a private write of a word, its high byte first.
#[tactic(auto, unfolding(crate::specs::Actions::with_word))]
pub(crate) fn put_word(at: u32, value: u16, progress: &mut Progress)
    requires at { at < 0x100_0000 }
    requires room { array_vec_len progress.old.writes + 2 ≤ 80 }
    ensures value { done_of progress.new ≡ actions.with_word at value (done_of progress.old) }
    ensures spent { SpendsAtMost progress.old progress.new 0 2 }
{
    put_byte(at, (value / 0x100) as u8, progress);
    put_byte(at + 1, (value % 0x100) as u8, progress);
}
