ghost use Rattle.std.specs.Prelude.{◌≡◌, ℕ, Bool, length, map, IfErr, IfOk};
ghost use Rattle.md_fields.specs.Fields.{AreSized, seen};
ghost use Rattle.md_fields.specs.Items.{IsRefused, IsRight, Keeps};
ghost use Rattle.md_fields.specs.Places.{Stand};
ghost use Rattle.vdp_ports.specs.Dma.{with_rest};
ghost use Rattle.vdp_ports.specs.Numbers.{numbers_of, vdp_of};
ghost use Rattle.vdp_ports.specs.Saved.{vdp_fields};
ghost use Rattle.vdp_ports.specs.Spelling.{vdp_size};

use crate::data::{COLOUR, SCROLL};
use crate::dma::{COPY, FILL, Rest};
use crate::saved_rules::have_only;
use crate::state::{VRAM_SIZE, VdpState};
use md_fields::{Field, first_invalid, u8_at, u16_at, u32_at, u64_at, words_at};
use md_word::NoMemory;
use std::alloc::Global;
use std::marker::Model;

/// The offsets of VRAM, CRAM, VSRAM and of the numbers after them among the bytes that keep a VDP.
const VRAM: usize = 24;

const CRAM: usize = VRAM + VRAM_SIZE;

const VSRAM: usize = CRAM + 2 * 64;

const NUMBERS: usize = VSRAM + 2 * 40;

/// How many bytes of a saved state keep a VDP.
pub const VDP_SIZE: usize = NUMBERS + 45;

/// How many codes there are.
const CODES: u8 = 64;

/// The numbers that a saved state keeps of the VDP, whatever they are, in their order. Cycles are
/// master cycles.
#[derive(Drop)]
pub struct SavedVdp<'a> {
    pub(crate) registers: &'a [u8],
    pub(crate) vram: &'a [u8],
    pub(crate) cram: [u16; 64],
    pub(crate) vsram: [u16; 40],
    pub(crate) pending: u8,
    pub(crate) code: u8,
    pub(crate) a: u16,
    pub(crate) armed: u8,
    pub(crate) dma_kind: u8,
    pub(crate) byte: u8,
    pub(crate) source: u16,
    pub(crate) address: u16,
    pub(crate) left: u32,
    pub(crate) next_stamp: u64,
    pub(crate) vertical: u8,
    pub(crate) horizontal: u8,
    pub(crate) overflow: u8,
    pub(crate) collision: u8,
    pub(crate) line_counter: u8,
    pub(crate) int_from: u64,
    pub(crate) int_to: u64,
    pub(crate) tall: u8,
}

impl<'a> Model for SavedVdp<'a> {
    ghost use Rattle.vdp_ports.specs.Numbers.{VdpNumbers};
    ghost use Rattle.vdp_ports.specs.Vdp.{IsVdp};

    ghost Value = { VdpNumbers };

    ghost view = { λ s. record {
      registers = s.registers.now;
      vram = s.vram.now;
      cram = s.cram;
      vsram = s.vsram;
      pending = s.pending;
      code = s.code;
      a = s.a;
      armed = s.armed;
      dma_kind = s.dma_kind;
      byte = s.byte;
      source = s.source;
      address = s.address;
      left = s.left;
      next_stamp = s.next_stamp;
      vertical = s.vertical;
      horizontal = s.horizontal;
      overflow = s.overflow;
      collision = s.collision;
      line_counter = s.line_counter;
      int_from = s.int_from;
      int_to = s.int_to;
      tall = s.tall;
    } };

    ghost invariant = { λ s. IsVdp s.registers.now s.vram.now s.cram s.vsram };
}

impl<'a> SavedVdp<'a> {
    /// What is kept of a VDP.
    pub fn of(state: &'a VdpState) -> SavedVdp<'a>
        ensures { result ≡ numbers_of state.now }
    {
        SavedVdp::with(state, &state.vram, state.rest())
    }

    /// What is kept of a VDP with this memory and this rest of a fill or copy.
    pub fn with(state: &'a VdpState, vram: &'a [u8; VRAM_SIZE], rest: Rest) -> SavedVdp<'a>
        ensures { result ≡ numbers_of (with_rest state.now vram.now rest) }
    {
        SavedVdp {
            registers: &state.registers,
            vram,
            cram: state.cram,
            vsram: state.vsram,
            pending: u8::from(state.pending),
            code: state.code,
            a: state.a,
            armed: u8::from(state.armed),
            dma_kind: rest.dma_kind,
            byte: rest.byte,
            source: rest.source,
            address: rest.address,
            left: rest.left,
            next_stamp: rest.next_stamp,
            vertical: u8::from(state.vertical),
            horizontal: u8::from(state.horizontal),
            overflow: u8::from(state.overflow),
            collision: u8::from(state.collision),
            line_counter: state.line_counter,
            int_from: state.int_from,
            int_to: state.int_to,
            tall: u8::from(state.tall),
        }
    }

    /// The numbers in the bytes.
    #[tactic(auto, unfolding(md_fields::specs::Places::Stand))]
    fn read(bytes: &'a [u8]) -> SavedVdp<'a>
        requires { length bytes.now ≡ vdp_size }
        ensures { (at : ℕ) (pal : Bool) → Stand 0 (vdp_fields at pal result) bytes.now }
    {
        SavedVdp {
            registers: &bytes[..VRAM],
            vram: &bytes[VRAM..CRAM],
            cram: words_at(bytes, CRAM),
            vsram: words_at(bytes, VSRAM),
            pending: u8_at(bytes, NUMBERS),
            code: u8_at(bytes, NUMBERS + 1),
            a: u16_at(bytes, NUMBERS + 2),
            armed: u8_at(bytes, NUMBERS + 4),
            dma_kind: u8_at(bytes, NUMBERS + 5),
            byte: u8_at(bytes, NUMBERS + 6),
            source: u16_at(bytes, NUMBERS + 7),
            address: u16_at(bytes, NUMBERS + 9),
            left: u32_at(bytes, NUMBERS + 11),
            next_stamp: u64_at(bytes, NUMBERS + 15),
            vertical: u8_at(bytes, NUMBERS + 23),
            horizontal: u8_at(bytes, NUMBERS + 24),
            overflow: u8_at(bytes, NUMBERS + 25),
            collision: u8_at(bytes, NUMBERS + 26),
            line_counter: u8_at(bytes, NUMBERS + 27),
            int_from: u64_at(bytes, NUMBERS + 28),
            int_to: u64_at(bytes, NUMBERS + 36),
            tall: u8_at(bytes, NUMBERS + 44),
        }
    }

    /// The fields in their order, and whether their rules hold in a state at a cycle and of a region.
    #[tactic(auto, unfolding(md_fields::specs::Fields::AreSized))]
    pub fn fields(&self, at: u64, pal: bool) -> [Field<'_>; 22]
        ensures fields { map seen result ≡ vdp_fields at pal self.now }
        ensures sizes { AreSized (map seen result) }
    {
        [
            Field::Block(self.registers, true),
            Field::Block(self.vram, true),
            Field::Words(&self.cram, have_only(COLOUR, &self.cram)),
            Field::Words(&self.vsram, have_only(SCROLL, &self.vsram)),
            Field::Byte(self.pending, self.pending <= 1),
            Field::Byte(self.code, self.code < CODES),
            Field::Word(self.a, true),
            Field::Byte(self.armed, self.armed <= 1),
            Field::Byte(self.dma_kind, self.dma_kind <= COPY),
            Field::Byte(self.byte, self.dma_kind == FILL || self.byte == 0),
            Field::Word(self.source, self.dma_kind == COPY || self.source == 0),
            Field::Word(self.address, self.is_address()),
            Field::Long(self.left, self.is_left()),
            Field::Quad(self.next_stamp, self.is_next_stamp(at)),
            Field::Byte(self.vertical, self.vertical <= 1),
            Field::Byte(self.horizontal, self.horizontal <= 1),
            Field::Byte(self.overflow, self.overflow <= 1),
            Field::Byte(self.collision, self.collision <= 1),
            Field::Byte(self.line_counter, true),
            Field::Quad(self.int_from, true),
            Field::Quad(self.int_to, self.is_interval(at)),
            Field::Byte(self.tall, self.tall <= u8::from(pal)),
        ]
    }

    /// The numbers that the bytes keep, where the rules hold of them. The error is the offset of the first
    /// field whose rule fails, or the lesser of the number of bytes and `VDP_SIZE` where they differ.
    pub fn checked(bytes: &'a [u8], at: u64, pal: bool) -> Result<SavedVdp<'a>, usize>
        ensures found { IfOk result (λ n. Keeps (vdp_fields at pal) bytes.now n × IsRight (vdp_fields at pal) n) }
        ensures refused { IfErr result (λ place. IsRefused vdp_size (vdp_fields at pal) bytes.now place) }
    {
        if bytes.len() != VDP_SIZE {
            return Err(bytes.len().min(VDP_SIZE));
        }
        let saved = SavedVdp::read(bytes);
        match first_invalid(&saved.fields(at, pal)) {
            Some(place) => Err(place),
            None => Ok(saved),
        }
    }

    /// The VDP of a region of which these numbers are kept. VRAM is copied. The only error is out of memory.
    pub fn state(&self, alloc: Global, pal: bool) -> Result<VdpState, NoMemory>
        ensures { IfOk result (λ state. state ≡ vdp_of pal self.now) }
    {
        let mut vram = Box::new(alloc, [0; VRAM_SIZE])?;
        vram.copy_from_slice(self.vram);
        Ok(self.with_vram(vram, pal))
    }

    fn with_vram(&self, vram: Box<[u8; VRAM_SIZE]>, pal: bool) -> VdpState
        requires { vram.value ≡ self.now.vram }
        ensures { result ≡ vdp_of pal self.now }
    {
        VdpState {
            registers: registers_of(self.registers),
            vram,
            cram: self.cram,
            vsram: self.vsram,
            pending: self.pending == 1,
            code: self.code,
            a: self.a,
            armed: self.armed == 1,
            dma_kind: self.dma_kind,
            byte: self.byte,
            source: self.source,
            address: self.address,
            left: self.left,
            next_stamp: self.next_stamp,
            vertical: self.vertical == 1,
            horizontal: self.horizontal == 1,
            overflow: self.overflow == 1,
            collision: self.collision == 1,
            line_counter: self.line_counter,
            int_from: self.int_from,
            int_to: self.int_to,
            pal,
            tall: self.tall == 1,
        }
    }
}

/// The registers in 24 bytes.
fn registers_of(bytes: &[u8]) -> [u8; 24]
    requires { length bytes.now ≡ 24 }
    ensures { result ≡ bytes.now }
{
    let mut registers = [0; 24];
    registers.copy_from_slice(bytes);
    registers
}
