ghost use Rattle.std.specs.Prelude.{◌≡◌, ◌^◌, ◌<◌, ◌≤◌, ℕ, Bool, length, map, IfErr, IfOk};
ghost use Rattle.md_fields.specs.Fields.{AreSized, seen};
ghost use Rattle.md_fields.specs.Items.{IsRefused, IsRight, Keeps};
ghost use Rattle.md_fields.specs.Places.{Stand};
ghost use Rattle.vdp_chip.specs.RendererState as renderer_state;
ghost use Rattle.vdp_chip.specs.Picture.{memory_length};
ghost use Rattle.vdp_chip.specs.Saved as rules;
ghost use Rattle.vdp_chip.specs.Saved.{renderer_state_fields, fields_by};
ghost use Rattle.vdp_chip.specs.Spelling.{renderer_state_size};

use md_fields::{Field, are_zeros, first_invalid, u8_at, u64_at};
use md_word::clock::LINE;
use md_word::region::rows;
use std::marker::Model;
use vdp_planes::SCANLINE_LENGTH;
use vdp_time::line_of;

/// How many bytes of a saved state keep a VDP renderer.
pub const RENDERER_STATE_SIZE: usize = 230_410;

/// The offset of the picture among them.
const DOTS: usize = 10;

/// The numbers that a saved state keeps of the VDP renderer, whatever they are, in their
/// order. Cycles are master cycles.
#[derive(Drop)]
pub struct SavedRendererState<'a> {
    pub next: u64,
    pub overflow: u8,
    pub collision: u8,
    pub picture: &'a [u8],
}

impl<'a> Model for SavedRendererState<'a> {
    ghost use Rattle.std.specs.Prelude.{◌≡◌, length};
    ghost use Rattle.vdp_chip.specs.Picture.{memory_length};
    ghost use Rattle.vdp_chip.specs.Saved.{RendererStateNumbers};

    ghost Value = { RendererStateNumbers };

    ghost view = { λ s. record { next = s.next; overflow = s.overflow; collision = s.collision; picture = s.picture.now } };

    ghost invariant = { λ s. length s.picture.now ≡ memory_length };
}

impl<'a> SavedRendererState<'a> {
    /// The numbers in the bytes.
    #[tactic(auto, unfolding(md_fields::specs::Places::Stand))]
    fn read(bytes: &'a [u8]) -> SavedRendererState<'a>
        requires { length bytes.now ≡ renderer_state_size }
        ensures { (at : ℕ) (pal : Bool) → Stand 0 (renderer_state_fields at pal result) bytes.now }
    {
        SavedRendererState {
            next: u64_at(bytes, 0),
            overflow: u8_at(bytes, 8),
            collision: u8_at(bytes, 9),
            picture: &bytes[DOTS..RENDERER_STATE_SIZE],
        }
    }

    /// The fields in their order, and whether their rules hold in a state at a cycle; whether that of the picture
    /// does is told.
    #[tactic(auto, unfolding(md_fields::specs::Fields::AreSized))]
    pub fn fields(&self, at: u64, holds: bool) -> [Field<'_>; 4]
        ensures fields { map seen result ≡ fields_by at holds self.now }
        ensures sizes { AreSized (map seen result) }
    {
        [
            Field::Quad(self.next, is_first(self.next, at)),
            Field::Byte(self.overflow, self.overflow <= 1 && self.collision <= 1),
            Field::Byte(self.collision, true),
            Field::Block(self.picture, holds),
        ]
    }

    /// Whether the rows of the picture are 0 that are not drawn below a cycle.
    fn is_picture(&self, at: u64, pal: bool) -> bool
        ensures { result ≡ rules.is_picture at pal self.now.picture }
    {
        are_zeros(&self.picture[SCANLINE_LENGTH * undrawn_from(at, pal) as usize..])
    }

    /// The numbers that the bytes keep, where the rules hold of them. The error is the offset of the first
    /// field whose rule fails, or the lesser of the number of bytes and 230,410 where it is not 230,410.
    pub fn checked(bytes: &'a [u8], at: u64, pal: bool) -> Result<SavedRendererState<'a>, usize>
        ensures found { IfOk result (λ n. Keeps (renderer_state_fields at pal) bytes.now n × IsRight (renderer_state_fields at pal) n) }
        ensures refused { IfErr result (λ place. IsRefused renderer_state_size (renderer_state_fields at pal) bytes.now place) }
    {
        if bytes.len() != RENDERER_STATE_SIZE {
            return Err(bytes.len().min(RENDERER_STATE_SIZE));
        }
        let saved = SavedRendererState::read(bytes);
        let holds = saved.is_picture(at, pal);
        match first_invalid(&saved.fields(at, holds)) {
            Some(place) => Err(place),
            None => Ok(saved),
        }
    }
}

fn is_first(next: u64, at: u64) -> bool
    ensures { result ≡ rules.is_first next at }
{
    next % LINE == 0 && at <= next && next - at < LINE
}

/// The first row that is not drawn below a cycle: 224, on PAL 240, where all are.
#[tactic(auto, unfolding(crate::specs::RendererState::undrawn_from))]
fn undrawn_from(at: u64, pal: bool) -> u32
    ensures scanline { result ≡ renderer_state.undrawn_from at pal }
    ensures most { result ≤ 240 }
{
    if at == 0 {
        0
    } else {
        (line_of(at - 1, pal) + 1).min(rows(pal))
    }
}
