ghost use Rattle.std.specs.Prelude.{◌≡◌, ◌+◌, ◌<◌, ◌≤◌, slice_index};
ghost use Rattle.arrayvec.specs.ArrayVec.{array_vec_len};
ghost use Rattle.z80_parcel.specs.Parcels.{ram_size};
ghost use Rattle.z80_exec.specs.Access.Actions as actions;
ghost use Rattle.z80_exec.specs.Access.Clauses.{done_of, memory_of};
ghost use Rattle.z80_exec.specs.Access.Memory as memory;

use crate::{Context, Progress80};
use z80_parcel::{RAM_END, RAM_SIZE, is_bank, shift};

/// The first address of the window, which reaches to the last address.
const WINDOW: u16 = 0x8000;

/// The first address from which fewer than four bytes of RAM go on.
pub const LAST_FOUR: u16 = RAM_SIZE as u16 - 3;

/// The byte that is read where nothing answers.
const OPEN_BUS: u8 = 0xff;

/// Whether a read at an address is shared with other chips.
pub fn is_shared_read(at: u16) -> bool
    ensures { result ≡ memory.is_shared_read at }
{
    matches!(at, 0x4000..=0x5fff)
}

/// Whether a write at an address is shared with other chips.
pub fn is_shared_write(at: u16) -> bool
    ensures { result ≡ memory.is_shared_write at }
{
    matches!(at, 0x4000..=0x5fff | 0x7f11)
}

/// A byte of the window.
#[tactic(auto, unfolding(crate::specs::Access::Memory::window_byte))]
fn window_byte(at: u16, rom: &[u8], bank: u16) -> u8
    ensures { result ≡ memory.window_byte rom.now bank at }
{
    let place = u32::from(bank) * 0x8000 + u32::from(at % 0x8000);
    if (place as usize) < rom.len() {
        rom[place as usize]
    } else {
        OPEN_BUS
    }
}

/// A byte of an instruction, which is no access.
#[tactic(auto, unfolding(crate::specs::Access::Memory::instruction_byte, crate::specs::Access::Memory::byte_at))]
fn instruction_byte(at: u16, context: &Context) -> u8
    ensures { result ≡ memory.instruction_byte at (memory_of context.now) }
{
    if at < RAM_END {
        context.ram[usize::from(at) % RAM_SIZE]
    } else if at >= WINDOW {
        window_byte(at, context.rom, context.bank)
    } else {
        OPEN_BUS
    }
}

/// As many bytes of RAM, where it does not repeat among them.
#[inline(always)]
#[tactic(auto, unfolding(crate::specs::Access::Memory::instruction_bytes, crate::specs::Access::Memory::instruction_byte, crate::specs::Access::Memory::byte_at))]
pub fn ram_bytes(at: u16, ram: &[u8; RAM_SIZE]) -> [u8; 4]
    requires { at + 3 < ram_size }
    ensures { (seen : memory.Memory) → seen.ram ≡ ram.now → result ≡ memory.instruction_bytes at seen }
{
    let place = usize::from(at);
    [ram[place], ram[place + 1], ram[place + 2], ram[place + 3]]
}

/// As many bytes as the longest instruction has, from an address on. None is an access.
#[inline(always)]
pub fn instruction_bytes(at: u16, context: &Context) -> [u8; 4]
    ensures { result ≡ memory.instruction_bytes at (memory_of context.now) }
{
    if at < LAST_FOUR {
        ram_bytes(at, context.ram)
    } else {
        far_bytes(at, context)
    }
}

/// The same, byte by byte.
#[inline(never)]
#[tactic(auto, unfolding(crate::specs::Access::Memory::instruction_bytes))]
fn far_bytes(at: u16, context: &Context) -> [u8; 4]
    ensures { result ≡ memory.instruction_bytes at (memory_of context.now) }
{
    [
        instruction_byte(at, context),
        instruction_byte(at.wrapping_add(1), context),
        instruction_byte(at.wrapping_add(2), context),
        instruction_byte(at.wrapping_add(3), context),
    ]
}

/// A byte of RAM as these writes have left it: the latest counts.
fn ram_byte(at: u16, ram: &[u8; RAM_SIZE], writes: &[(u16, u8)]) -> u8
    ensures { result ≡ slice_index (memory.ram_after ram.now writes.now) (memory.ram_place at) }
{
    let place = usize::from(at) % RAM_SIZE;
    let mut byte = ram[place];
    'writes: for (written, value) in writes {
        if *written < RAM_END && usize::from(*written) % RAM_SIZE == place {
            byte = *value;
        }
    }
    byte
}

/// The bank register as these writes have left it.
fn bank_left(bank: u16, writes: &[(u16, u8)]) -> u16
    ensures { result ≡ memory.bank_after bank writes.now }
{
    let mut left = bank;
    'writes: for (written, value) in writes {
        if is_bank(*written) {
            left = shift(left, *value);
        }
    }
    left
}

/// What a private read of a byte sees, with the instruction's own writes.
#[tactic(auto, unfolding(crate::specs::Access::Actions::byte_seen, crate::specs::Access::Memory::byte_at))]
pub fn byte_seen(at: u16, context: &Context, progress: &Progress80) -> u8
    ensures { result ≡ actions.byte_seen at (memory_of context.now) (done_of progress.now) }
{
    let writes = progress.writes.as_slice();
    if at < RAM_END {
        ram_byte(at, context.ram, writes)
    } else if at >= WINDOW {
        window_byte(at, context.rom, bank_left(context.bank, writes))
    } else {
        OPEN_BUS
    }
}

/// Notes a private write of a byte, which is lost outside RAM and the bank register.
#[tactic(auto, unfolding(crate::specs::Access::Actions::with_byte))]
pub fn put_byte(at: u16, value: u8, progress: &mut Progress80)
    requires { array_vec_len progress.old.writes + 1 ≤ 4 }
    ensures value { done_of progress.new ≡ actions.with_byte at value (done_of progress.old) }
    ensures written { array_vec_len progress.new.writes ≤ array_vec_len progress.old.writes + 1 }
{
    if at < RAM_END || is_bank(at) {
        progress.writes.push((at, value));
    }
}
