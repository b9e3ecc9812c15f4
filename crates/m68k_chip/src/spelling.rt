ghost use Rattle.std.specs.Prelude.{◌≡◌, ◌≢◌, ◌+◌, ◌≤◌, ◌++◌, ◌↔◌, ℕ, length, vec_len, vec_capacity, IfOk, IsErrOf, Ok, Err};
ghost use Rattle.m68k_chip.specs.Rules.{HasRules};
ghost use Rattle.m68k_chip.specs.Spelling.{InvalidAt, Spells, chip_bytes, chip_size, ram_in};
ghost use Rattle.m68k_chip.specs.States.{State68};

use crate::chip::Chip68;
use crate::iteration::Iteration;
use crate::known::{known_next, known_regs};
use crate::repetition::Patience;
use crate::saved::{CHIP_SIZE, RAM, Saved68};
use m68k_access::memory::RAM_SIZE;
use m68k_exec::{DecodeCache, Progress};
use md_fields::put;
use md_word::{NoMemory, Unspell};
use rom_header::Cart;
use std::alloc::Global;
use std::sync::Arc;

impl Chip68 {
    ghost use Rattle.std.specs.Arc.{arc_value};

    /// Appends the bytes of a saved state at a cycle that keep this 68000, 65,714 in all. There is room
    /// for them. They are read again where no event is below the cycle, and the rules hold there.
    pub fn spell(&self, at: u64, into: &mut Vec<u8>)
        requires { vec_len into.old + chip_size ≤ vec_capacity into.old }
        ensures bytes { into.new.items ≡ into.old.items ++ chip_bytes self.now.state }
        ensures length { vec_len into.new ≡ vec_len into.old + chip_size }
        ensures room { vec_capacity into.old ≤ vec_capacity into.new }
        ensures kept { at ≤ self.now.state.next → HasRules at self.now.state → Spells self.now.cart at (chip_bytes self.now.state) self.now.state }
    {
        self.is_read_again();
        put(
            &Saved68::of(&self.sequencer, &self.ram).fields(at, true),
            into,
        );
    }

    /// Makes known that the bytes of this 68000 are read again, where no event is below a cycle and the rules hold
    /// there.
    pub fn is_read_again(&self)
        ensures { (at : ℕ) → at ≤ self.now.state.next → HasRules at self.now.state → Spells self.now.cart at (chip_bytes self.now.state) self.now.state }
    {
        known_regs(&self.sequencer.regs);
        known_next(&self.sequencer);
    }

    /// The 68000 that the bytes of a saved state at a cycle keep, over its cartridge. Numbers have their high
    /// byte first. Bytes that are not 65,714 are refused at the lesser of the two lengths, others at the offset of
    /// the first field whose rule fails. An access of what does not ask for one more answer, or was answered by
    /// what does not fit, is refused at 178, where work RAM begins. Work RAM is copied; where memory runs out the
    /// answer is NoMemory.
    pub fn unspell(alloc: Global, bytes: &[u8], at: u64, cart: Arc<Cart>) -> Result<Chip68, Unspell>
        ensures found { IfOk result (λ chip. (chip.cart ≡ arc_value cart) × Spells (arc_value cart) at bytes.now chip.state) }
        ensures recent { IfOk result (λ chip. HasRules at chip.state) }
        ensures only { (state : State68) → Spells (arc_value cart) at bytes.now state → result ≢ Err Unspell.NoMemory
            → result ≡ Ok (record { cart = arc_value cart; state = state }) }
        ensures rule { (place : ℕ) → IsErrOf result (Unspell.Rule place) ↔ InvalidAt (arc_value cart) at bytes.now place }
    {
        cart.bytes();
        match Saved68::checked(bytes, at, &cart) {
            Ok(sequencer) => {
                let cache = DecodeCache::empty(alloc)?;
                let ram = copied(alloc, bytes)?;
                let none = Iteration::none();
                let patience = Patience::new();
                Ok(Chip68 {
                    cart,
                    ram,
                    sequencer,
                    progress: Progress::new(),
                    cache,
                    iteration: none,
                    other: none,
                    patience,
                })
            }
            Err(place) => Err(Unspell::Rule {
                place: place as u64,
            }),
        }
    }
}

/// Work RAM as it is in the bytes.
fn copied(alloc: Global, bytes: &[u8]) -> Result<Box<[u8; RAM_SIZE]>, NoMemory>
    requires { length bytes.now ≡ chip_size }
    ensures { IfOk result (λ ram. ram.value ≡ ram_in bytes.now) }
{
    let mut ram = Box::new(alloc, [0; RAM_SIZE])?;
    ram.copy_from_slice(&bytes[RAM..CHIP_SIZE]);
    Ok(ram)
}
