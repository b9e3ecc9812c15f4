ghost use Rattle.std.specs.Prelude.{◌≡◌, ◌+◌, ◌<◌, ◌≤◌, ◌++◌, IfOk, Some, length, map, option_map, true, vec_capacity, vec_len};
ghost use Rattle.md_fields.specs.Fields.{seen, spelling};
ghost use Rattle.z80_parcel.specs.Parcels as parcels;
ghost use Rattle.z80_parcel.specs.Parcels.{store_of};
ghost use Rattle.z80_parcel.specs.Spelling as meaning;

use crate::parcel::{RAM_SIZE, known};
use md_fields::{Field, put};
use md_word::{NoMemory, Parcel};
use std::alloc::Global;

/// How many values the bank register has, of nine bits.
pub const BANKS: u16 = 512;

/// RAM and bank register as fields.
fn store_fields(ram: &[u8], bank: u16) -> [Field<'_>; 2]
    requires { length ram.now ≡ parcels.ram_size }
    ensures fields { map seen result ≡ meaning.store_fields true (Some (record { ram = ram.now; bank = bank })) }
{
    [Field::Block(ram, true), Field::Word(bank, bank < BANKS)]
}

/// Appends the bytes of a saved state that keep RAM and bank register, 8,194 where they are there and
/// none else. There is room for them.
pub fn put_store(parcel: &Option<Parcel>, into: &mut Vec<u8>)
    requires { vec_len into.old + length (spelling (meaning.store_fields true (option_map store_of parcel.now))) ≤ vec_capacity into.old }
    ensures bytes { into.new.items ≡ into.old.items ++ spelling (meaning.store_fields true (option_map store_of parcel.now)) }
    ensures length { vec_len into.new ≡ vec_len into.old + length (spelling (meaning.store_fields true (option_map store_of parcel.now))) }
    ensures room { vec_capacity into.old ≤ vec_capacity into.new }
{
    if let Some(parcel) = parcel {
        known(parcel);
        put(&store_fields(parcel.ram.as_slice(), parcel.bank), into);
    }
}

/// A parcel of this RAM, which is copied, and this bank register, as a saved state keeps them.
/// It fails where there is no memory for it.
pub fn parcel_of(alloc: Global, ram: &[u8], bank: u16) -> Result<Parcel, NoMemory>
    requires length { length ram.now ≡ parcels.ram_size }
    requires nine { bank < parcels.banks }
    ensures { IfOk result (λ parcel. store_of parcel ≡ record { ram = ram.now; bank = bank }) }
{
    let mut copied = Box::new(alloc, [0; RAM_SIZE])?;
    copied.copy_from_slice(ram);
    Ok(Parcel { ram: copied, bank })
}
