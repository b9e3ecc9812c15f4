ghost use Rattle.std.specs.Prelude.{◌≡◌, ◌≢◌, ◌+◌, ◌^◌, ◌<◌, ◌≤◌, ◌++◌, ◌↔◌, ℕ, length, vec_len, vec_capacity, IfOk, IsErrOf, Ok, Err};
ghost use Rattle.vdp_chip.specs.RendererState.{RendererState, IsRendererState};
ghost use Rattle.vdp_chip.specs.Picture.{memory_length};
ghost use Rattle.vdp_chip.specs.Saved.{renderer_state_of, numbers_of};
ghost use Rattle.vdp_chip.specs.Spelling.{InvalidAt, IsReady, Spells, drained, renderer_state_bytes, renderer_state_size};

use crate::chip::{ChipVdp, black, empty_view};
use crate::kept::Kept;
use crate::picture::PICTURE;
use crate::saved::SavedRendererState;
use md_fields::put;
use md_word::{NoMemory, Unspell};
use std::alloc::Global;
use vdp_planes::SpriteNote;

impl ChipVdp {
    /// What is kept of the chip.
    fn saved(&self) -> SavedRendererState<'_>
        ensures { result ≡ numbers_of self.now }
    {
        SavedRendererState {
            next: self.next,
            overflow: u8::from(self.note.overflow),
            collision: u8::from(self.note.collision),
            picture: &self.picture[..],
        }
    }

    /// States what holds of every chip: its lengths and its lines, and that its cycle has eight bytes.
    fn known(&self)
        ensures renderer_state { IsRendererState self.now }
        ensures next { self.now.next < 2 ^ 64 }
    {
        let _next = self.next;
    }

    /// Appends the bytes of a saved state at a cycle that keep this chip, 230,410 in all. There is room
    /// for them. A frame that waits to be handed out is not kept. They are read again where the next event
    /// is the first of a line from the cycle on.
    pub fn spell(&self, at: u64, into: &mut Vec<u8>)
        requires { vec_len into.old + renderer_state_size ≤ vec_capacity into.old }
        ensures bytes { into.new.items ≡ into.old.items ++ renderer_state_bytes self.now }
        ensures length { vec_len into.new ≡ vec_len into.old + renderer_state_size }
        ensures room { vec_capacity into.old ≤ vec_capacity into.new }
        ensures kept { IsReady at self.now → Spells at self.now.pal (renderer_state_bytes self.now) (drained self.now) }
    {
        self.known();
        put(&self.saved().fields(at, true), into);
    }

    /// States that the bytes of this chip are read again where its next event is the first of a line from a cycle
    /// on, with its view here and without a frame.
    pub fn is_read_again(&self)
        ensures { (at : ℕ) → IsReady at self.now → Spells at self.now.pal (renderer_state_bytes self.now) (drained self.now) }
    {
        self.known();
    }

    /// The chip that the bytes of a saved state at a master cycle and of a region keep, with its view here and
    /// without a frame. The picture is copied.
    ///
    /// `Rule` has the offset of the first invalid byte: where there are not 230,410 bytes, the lesser of their
    /// number and 230,410; else where the first field begins whose rule fails. The only other error is out of
    /// memory.
    pub fn unspell(alloc: Global, bytes: &[u8], at: u64, pal: bool) -> Result<ChipVdp, Unspell>
        ensures found { IfOk result (λ d. Spells at pal bytes.now d) }
        ensures only { (d : RendererState) → Spells at pal bytes.now d → result ≢ Err Unspell.NoMemory → result ≡ Ok d }
        ensures rule { (place : ℕ) → IsErrOf result (Unspell.Rule place) ↔ InvalidAt at pal bytes.now place }
    {
        match SavedRendererState::checked(bytes, at, pal) {
            Ok(saved) => Ok(saved.chip(alloc, pal)?),
            Err(place) => Err(Unspell::Rule {
                place: place as u64,
            }),
        }
    }
}

impl<'a> SavedRendererState<'a> {
    /// The chip of a region of which these numbers are kept. The picture is copied. The only error is out of
    /// memory.
    fn chip(&self, alloc: Global, pal: bool) -> Result<ChipVdp, NoMemory>
        requires { IsRendererState (renderer_state_of pal self.now) }
        ensures { IfOk result (λ chip. chip ≡ renderer_state_of pal self.now) }
    {
        let view = empty_view(alloc, pal)?;
        let picture = copied(alloc, self.picture)?;
        let aside = black(alloc)?;
        Ok(ChipVdp {
            next: self.next,
            view: Some(view),
            note: SpriteNote {
                overflow: self.overflow == 1,
                collision: self.collision == 1,
            },
            picture,
            aside,
            kept: Kept::Nowhere,
            pal,
        })
    }
}

/// A picture of these bytes.
fn copied(alloc: Global, bytes: &[u8]) -> Result<Box<[u8; PICTURE]>, NoMemory>
    requires { length bytes.now ≡ memory_length }
    ensures { IfOk result (λ picture. picture.value ≡ bytes.now) }
{
    let mut picture = Box::new(alloc, [0; PICTURE])?;
    picture.copy_from_slice(bytes);
    Ok(picture)
}
