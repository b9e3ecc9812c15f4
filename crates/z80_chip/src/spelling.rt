ghost use Rattle.std.specs.Prelude.{◌≡◌, ◌≢◌, ◌+◌, ◌≤◌, ◌++◌, ℕ, List, length, true, option_map, is_some, vec_len, vec_capacity, IfErr, IfOk, IfSome, IsErrOf, Ok, Err};
ghost use Rattle.z80_chip.specs.Rules.{HasRules};
ghost use Rattle.z80_chip.specs.Spelling.{InvalidAt, IsLength, IsRead, Spells, chip_bytes, spelled_size, store_at};
ghost use Rattle.z80_chip.specs.States.{State80};
ghost use Rattle.z80_parcel.specs.Parcels.{IsStore, store_of};

use crate::chip::Chip80;
use crate::known::{known_counts, known_pairs, known_pointers};
use crate::saved::Saved80;
use md_fields::{first_invalid, put, u16_at};
use md_word::{NoMemory, Parcel, Unspell};
use rom_header::Cart;
use std::alloc::Global;
use std::sync::Arc;
use z80_exec::{DecodeCache80, Progress80};
use z80_parcel::{BANKS, RAM_SIZE, parcel_of, put_store};

/// How many bytes of a saved state keep a Z80 without its RAM; else the offset of its RAM.
pub const RAM_OFFSET: usize = 62;

/// The offset of the bank register.
const BANK: usize = RAM_OFFSET + RAM_SIZE;

/// How many bytes keep a Z80 with its RAM.
pub const FULL_SIZE: usize = BANK + 2;

impl Chip80 {
    ghost use Rattle.std.specs.Arc.{arc_value};

    /// Appends the bytes of a saved state that keep this Z80: 62, and where it has its RAM, this and
    /// the bank register, 8,256 in all. There is room for them. They are read again where no event
    /// is below the cycle, and the rules hold there.
    pub fn spell(&self, at: u64, into: &mut Vec<u8>)
        requires { vec_len into.old + spelled_size (is_some self.now.state.store) ≤ vec_capacity into.old }
        ensures bytes { into.new.items ≡ into.old.items ++ chip_bytes self.now.state }
        ensures length { vec_len into.new ≡ vec_len into.old + spelled_size (is_some self.now.state.store) }
        ensures room { vec_capacity into.old ≤ vec_capacity into.new }
        ensures kept { at ≤ self.now.state.next → HasRules self.now.cart at self.now.state → Spells self.now.cart at (chip_bytes self.now.state) self.now.state }
    {
        self.is_read_again();
        let has = self.parcel.is_some();
        put(&Saved80::of(&self.sequencer).fields(at, has), into);
        put_store(&self.parcel, into);
    }

    /// Ensures that the bytes of this Z80 are read again, where no event is below a cycle and the rules
    /// hold there.
    pub fn is_read_again(&self)
        ensures { (at : ℕ) → at ≤ self.now.state.next → HasRules self.now.cart at self.now.state → Spells self.now.cart at (chip_bytes self.now.state) self.now.state }
    {
        known_pairs(&self.sequencer.regs);
        known_pointers(&self.sequencer.regs);
        known_counts(&self.sequencer);
        let _ = &self.parcel;
    }

    /// The Z80 that the bytes of a saved state at a cycle keep, over its cartridge. RAM is copied.
    /// `Rule` has the offset of the first byte that is invalid. Bytes that are neither 62 nor 8,256
    /// are refused at the lesser of their number and 8,256, others at the first field whose rule
    /// fails. An access and a yield without RAM are refused at 62, where RAM begins; so are a take
    /// with it, and an access that does not ask for one more answer. `NoMemory` comes only where
    /// there is no memory for RAM or for the cache of decoded instructions.
    pub fn unspell(alloc: Global, bytes: &[u8], at: u64, cart: Arc<Cart>) -> Result<Chip80, Unspell>
        ensures found { IfOk result (λ chip. (chip.cart ≡ arc_value cart) × Spells (arc_value cart) at bytes.now chip.state) }
        ensures recent { IfOk result (λ chip. HasRules (arc_value cart) at chip.state) }
        ensures only { (state : State80) → Spells (arc_value cart) at bytes.now state → result ≢ Err Unspell.NoMemory
            → result ≡ Ok (record { cart = arc_value cart; state = state }) }
        ensures rule { (place : ℕ) → IsErrOf result (Unspell.Rule place) → InvalidAt (arc_value cart) at bytes.now place }
        ensures refused { (place : ℕ) → InvalidAt (arc_value cart) at bytes.now place → result ≢ Err Unspell.NoMemory
            → IsErrOf result (Unspell.Rule place) }
    {
        cart.bytes();
        let saved = match checked(bytes, at) {
            Ok(saved) => saved,
            Err(place) => {
                return Err(Unspell::Rule {
                    place: place as u64,
                });
            }
        };
        let parcel = parcel_at(alloc, bytes)?;
        if !saved.asks_more(&cart, &parcel) {
            return Err(Unspell::Rule {
                place: RAM_OFFSET as u64,
            });
        }
        let cache = DecodeCache80::empty(alloc)?;
        let mut sequencer = saved.sequencer();
        sequencer.resume(&cart, &parcel);
        Ok(Chip80 {
            cart,
            parcel,
            sequencer,
            cache,
            progress: Progress80::new(),
        })
    }
}

/// The numbers that the bytes keep, where all rules hold but that of RAM, which is not looked at.
/// The error is the offset at which the bytes are refused.
fn checked(bytes: &[u8], at: u64) -> Result<Saved80, usize>
    ensures found { IfOk result (λ saved. IsRead at bytes.now saved) }
    ensures refused { IfErr result (λ place. (cart : List ℕ) → InvalidAt cart at bytes.now place) }
{
    if bytes.len() != RAM_OFFSET && bytes.len() != FULL_SIZE {
        return Err(bytes.len().min(FULL_SIZE));
    }
    let saved = Saved80::read(bytes);
    let has = bytes.len() != RAM_OFFSET;
    if let Some(place) = first_invalid(&saved.fields(at, has)) {
        return Err(place);
    }
    if has && u16_at(bytes, BANK) >= BANKS {
        return Err(BANK);
    }
    Ok(saved)
}

/// RAM and bank register as they are in the bytes; None where the bytes have neither. It fails
/// where there is no memory for RAM.
fn parcel_at(alloc: Global, bytes: &[u8]) -> Result<Option<Parcel>, NoMemory>
    requires length { IsLength bytes.now }
    requires nine { IfSome (store_at bytes.now) IsStore }
    ensures { IfOk result (λ parcel. option_map store_of parcel ≡ store_at bytes.now) }
{
    if bytes.len() == RAM_OFFSET {
        return Ok(None);
    }
    let bank = u16_at(bytes, BANK);
    Ok(Some(parcel_of(alloc, &bytes[RAM_OFFSET..BANK], bank)?))
}
