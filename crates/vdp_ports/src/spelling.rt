ghost use Rattle.std.specs.Prelude.{◌≡◌, ◌≢◌, ◌+◌, ◌≤◌, ◌++◌, ◌↔◌, ℕ, vec_len, vec_capacity, IfOk, IsErrOf, Ok, Err};
ghost use Rattle.vdp_ports.specs.Dma.{with_rest};
ghost use Rattle.vdp_ports.specs.Ranges.{IsInRange};
ghost use Rattle.vdp_ports.specs.Spelling.{InvalidAt, IsSettled, Spells, vdp_bytes, vdp_size};
ghost use Rattle.vdp_ports.specs.Vdp.{Vdp};

use crate::dma::Rest;
use crate::known::{known_dma, known_interval, known_memories, known_port, known_rest, known_size};
use crate::saved::SavedVdp;
use crate::state::{VRAM_SIZE, VdpState};
use md_fields::put;
use md_word::Unspell;
use std::alloc::Global;

impl VdpState {
    /// Appends the bytes of a saved state at a master cycle that keep this VDP, 65,813 in all. There is room
    /// for them. They are read again where fill and copy are settled to the cycle.
    pub fn spell(&self, at: u64, into: &mut Vec<u8>)
        requires { vec_len into.old + vdp_size ≤ vec_capacity into.old }
        ensures bytes { into.new.items ≡ into.old.items ++ vdp_bytes self.now }
        ensures length { vec_len into.new ≡ vec_len into.old + vdp_size }
        ensures room { vec_capacity into.old ≤ vec_capacity into.new }
        ensures kept { IsSettled at self.now → Spells at self.now.pal (vdp_bytes self.now) self.now }
    {
        self.known();
        put(&SavedVdp::of(self).fields(at, self.pal), into);
    }

    /// States that its numbers fit the bytes that they take.
    pub fn known(&self)
        ensures { IsInRange self.now }
    {
        known_memories(self);
        known_port(self);
        known_dma(self);
        known_interval(self);
    }

    /// Appends the bytes of a saved state that keep this VDP with another memory and another rest of a
    /// fill or copy, as once it is settled. They are read again where those are settled to the cycle.
    pub fn spell_with(&self, vram: &[u8; VRAM_SIZE], rest: Rest, at: u64, into: &mut Vec<u8>)
        requires { vec_len into.old + vdp_size ≤ vec_capacity into.old }
        ensures bytes { into.new.items ≡ into.old.items ++ vdp_bytes (with_rest self.now vram.now rest) }
        ensures length { vec_len into.new ≡ vec_len into.old + vdp_size }
        ensures room { vec_capacity into.old ≤ vec_capacity into.new }
        ensures kept { IsSettled at (with_rest self.now vram.now rest)
            → Spells at self.now.pal (vdp_bytes (with_rest self.now vram.now rest)) (with_rest self.now vram.now rest) }
    {
        known_memories(self);
        known_port(self);
        known_interval(self);
        known_size(vram);
        known_rest(&rest);
        put(&SavedVdp::with(self, vram, rest).fields(at, self.pal), into);
    }

    /// The VDP that the bytes of a saved state at a master cycle and of a region keep. Fill and copy are to
    /// be settled to the cycle. VRAM is copied.
    ///
    /// `Rule` has the offset of the first invalid byte: where there are not 65,813 bytes, the lesser of their
    /// number and 65,813; else where the first field begins whose rule fails. The only other error is out of
    /// memory.
    pub fn unspell(alloc: Global, bytes: &[u8], at: u64, pal: bool) -> Result<VdpState, Unspell>
        ensures found { IfOk result (λ s. Spells at pal bytes.now s) }
        ensures settled { IfOk result (λ s. IsSettled at s) }
        ensures only { (s : Vdp) → Spells at pal bytes.now s → result ≢ Err Unspell.NoMemory → result ≡ Ok s }
        ensures rule { (place : ℕ) → IsErrOf result (Unspell.Rule place) ↔ InvalidAt at pal bytes.now place }
    {
        match SavedVdp::checked(bytes, at, pal) {
            Ok(saved) => Ok(saved.state(alloc, pal)?),
            Err(place) => Err(Unspell::Rule {
                place: place as u64,
            }),
        }
    }
}
