ghost use Rattle.std.specs.Prelude.{◌≡◌, ◌<◌, replicate, IfOk, slice_index};
ghost use Rattle.z80_parcel.specs.Parcels as parcels;
ghost use Rattle.z80_parcel.specs.Parcels.{IsStore, store_of};

use md_word::{NoMemory, Parcel, SUB_RAM_SIZE};
use std::alloc::Global;

/// How many bytes the Z80's RAM has.
pub const RAM_SIZE: usize = SUB_RAM_SIZE;

/// The first address of the Z80 after its RAM, which is repeated up to it. Source: Genesis Technical
/// Overview, the memory map of the Z80; the repeats are this project's profile.
pub const RAM_END: u16 = 0x4000;

/// Whether an address of the Z80 is the bank register's. Source: Genesis Technical Overview, the
/// memory map of the Z80.
pub fn is_bank(at: u16) -> bool
    ensures { result ≡ parcels.is_bank at }
{
    matches!(at, 0x6000..=0x60ff)
}

/// The bank register after a write: it has nine bits, of which bit 0 is A15, and a write shifts its
/// bit 0 in as A23 and moves the others down.
pub fn shift(bank: u16, value: u8) -> u16
    ensures value { result ≡ parcels.shifted bank value }
    ensures nine { bank < parcels.banks → result < parcels.banks }
{
    bank / 2 + u16::from(value % 2) * 0x100
}

/// Ensures what holds of every parcel: its RAM has 8 KiB, and its bank register nine bits.
pub fn known(parcel: &Parcel)
    ensures { IsStore (store_of parcel.now) }
{
    let _bank = parcel.bank;
    let _byte = parcel.ram[0];
}

/// The byte of RAM at an address below `RAM_END`.
pub fn read(at: u16, parcel: &Parcel) -> u8
    ensures { result ≡ slice_index parcel.now.ram.value (parcels.ram_place at) }
{
    parcel.ram[usize::from(at) % RAM_SIZE]
}

/// Writes a byte to RAM or to the bank register; elsewhere it is lost.
pub fn store_byte(at: u16, value: u8, parcel: &mut Parcel)
    ensures ram { parcel.new.ram.value ≡ parcels.stored parcel.old.ram.value (at, value) }
    ensures bank { parcel.new.bank ≡ parcels.banked parcel.old.bank (at, value) }
{
    if at < RAM_END {
        parcel.ram[usize::from(at) % RAM_SIZE] = value;
    } else if is_bank(at) {
        parcel.bank = shift(parcel.bank, value);
    }
}

/// Writes bytes to RAM and to the bank register, the oldest first; elsewhere they are lost.
pub fn store_bytes(writes: &[(u16, u8)], parcel: &mut Parcel)
    ensures ram { parcel.new.ram.value ≡ parcels.ram_after parcel.old.ram.value writes.now }
    ensures bank { parcel.new.bank ≡ parcels.bank_after parcel.old.bank writes.now }
{
    'writes: for (at, value) in writes {
        store_byte(*at, *value, parcel);
    }
}

/// The RAM at power-on. It fails where there is no memory for it.
fn zeroed(alloc: Global) -> Result<Box<[u8; RAM_SIZE]>, NoMemory>
    ensures { IfOk result (λ ram. ram.value ≡ replicate parcels.ram_size 0) }
{
    match Box::new(alloc, [0; RAM_SIZE]) {
        Ok(ram) => Ok(ram),
        Err(_) => Err(NoMemory),
    }
}

/// The RAM and the bank register at power-on, whose bytes and bits are 0.
/// It fails where there is no memory for it.
pub fn first(alloc: Global) -> Result<Parcel, NoMemory>
    ensures ram { IfOk result (λ parcel. parcel.ram.value ≡ replicate parcels.ram_size 0) }
    ensures bank { IfOk result (λ parcel. parcel.bank ≡ 0) }
{
    let ram = zeroed(alloc)?;
    Ok(Parcel { ram, bank: 0 })
}
