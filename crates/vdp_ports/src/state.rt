ghost use Rattle.std.specs.Prelude.{◌≡◌, ◌<◌, ℕ, IfOk, replicate};
ghost use Rattle.vdp_ports.specs.Rules.{HasRules};
ghost use Rattle.vdp_ports.specs.Vdp.{at_power_on};
ghost use Rattle.vdp_ports.specs.Vdp as meaning;

use crate::dma::NO_DMA;
use md_word::NoMemory;
use std::alloc::Global;
use std::marker::Model;

/// How many bytes VRAM has.
pub const VRAM_SIZE: usize = 65_536;

/// The VDP as its ports reach it: registers, memories, the state of the ports, a fill or copy in
/// progress, and the interrupts. Cycles are master cycles. Source: Genesis Technical Overview, the
/// VDP; the times of bytes and interrupts are this project's profile.
///
/// The struct takes about 300 bytes and a box of 64 KiB: hand it on by reference.
#[derive(Drop)]
pub struct VdpState {
    pub registers: [u8; 24],
    /// Patterns, tables of names, the table of sprites and that of horizontal scrolls.
    pub vram: Box<[u8; VRAM_SIZE]>,
    /// Four palettes of 16 colours: blue in bits 11 to 9, green 7 to 5, red 3 to 1.
    pub cram: [u16; 64],
    /// Vertical scrolls, alternating between plane A and plane B.
    pub vsram: [u16; 40],
    /// Whether a first control word waits for its second.
    pub pending: bool,
    /// CD5 to CD0: what a data access reaches.
    pub code: u8,
    /// A15 to A0: where the next data access goes.
    pub a: u16,
    /// Whether a fill waits for its data write.
    pub armed: bool,
    /// What is in progress: `NO_DMA`, `FILL` or `COPY`.
    pub dma_kind: u8,
    /// What a fill writes.
    pub byte: u8,
    /// Where a copy reads next.
    pub source: u16,
    /// Where a fill or copy writes next.
    pub address: u16,
    /// How many of its bytes are left, at most 65,536.
    pub left: u32,
    /// The cycle that its next byte is stamped with.
    pub next_stamp: u64,
    /// Whether the vertical interrupt is pending.
    pub vertical: bool,
    /// Whether the horizontal interrupt is pending.
    pub horizontal: bool,
    /// Whether a line had too many sprites since the last status read.
    pub overflow: bool,
    /// Whether two sprites met since the last status read.
    pub collision: bool,
    /// How many lines are left to the next horizontal interrupt.
    pub line_counter: u8,
    /// The cycle from which the latest interrupt of the Z80 is asked for.
    pub int_from: u64,
    /// The cycle from which it is asked for no longer.
    pub int_to: u64,
    /// Whether the console is one for PAL.
    pub pal: bool,
    /// Whether the display has 240 lines, which it may have on PAL alone.
    pub tall: bool,
}

impl Model for VdpState {
    ghost use Rattle.vdp_ports.specs.Vdp.{Vdp, IsVdp};

    ghost Value = { Vdp };

    ghost view = { λ s. record {
      registers = s.registers;
      vram = s.vram.value;
      cram = s.cram;
      vsram = s.vsram;
      pending = s.pending;
      code = s.code;
      a = s.a;
      armed = s.armed;
      dma_kind = s.dma_kind;
      byte = s.byte;
      source = s.source;
      address = s.address;
      left = s.left;
      next_stamp = s.next_stamp;
      vertical = s.vertical;
      horizontal = s.horizontal;
      overflow = s.overflow;
      collision = s.collision;
      line_counter = s.line_counter;
      int_from = s.int_from;
      int_to = s.int_to;
      pal = s.pal;
      tall = s.tall;
    } };

    ghost invariant = { λ s. IsVdp s.registers s.vram.value s.cram s.vsram };
}

impl VdpState {
    /// The VDP at power-on, of a region: all else is 0. The only error is out of memory.
    pub fn power_on(alloc: Global, pal: bool) -> Result<VdpState, NoMemory>
        ensures value { IfOk result (λ s. s ≡ at_power_on pal) }
        ensures rules { IfOk result (λ s. (at : ℕ) → HasRules at s) }
    {
        Ok(with_memory(zeroed(alloc)?, pal))
    }

    /// A register, 0 to 23.
    #[inline]
    pub fn register(&self, index: u8) -> u8
        requires { index < 24 }
        ensures value { result ≡ meaning.register self.now index }
        ensures sizes { meaning.IsVdp self.now.registers self.now.vram self.now.cram self.now.vsram }
    {
        self.registers[usize::from(index)]
    }
}

/// The VDP at power-on with its VRAM.
fn with_memory(vram: Box<[u8; VRAM_SIZE]>, pal: bool) -> VdpState
    requires { vram.value ≡ replicate meaning.vram_size 0 }
    ensures { result ≡ at_power_on pal }
{
    VdpState {
        registers: [0; 24],
        vram,
        cram: no_colours(),
        vsram: no_scrolls(),
        pending: false,
        code: 0,
        a: 0,
        armed: false,
        dma_kind: NO_DMA,
        byte: 0,
        source: 0,
        address: 0,
        left: 0,
        next_stamp: 0,
        vertical: false,
        horizontal: false,
        overflow: false,
        collision: false,
        line_counter: 0,
        int_from: 0,
        int_to: 0,
        pal,
        tall: false,
    }
}

/// CRAM at power-on.
fn no_colours() -> [u16; 64]
    ensures { result ≡ replicate 64 0 }
{
    [0; 64]
}

/// VSRAM at power-on.
fn no_scrolls() -> [u16; 40]
    ensures { result ≡ replicate 40 0 }
{
    [0; 40]
}

/// VRAM at power-on.
fn zeroed(alloc: Global) -> Result<Box<[u8; VRAM_SIZE]>, NoMemory>
    ensures { IfOk result (λ vram. vram.value ≡ replicate meaning.vram_size 0) }
{
    match Box::new(alloc, [0; VRAM_SIZE]) {
        Ok(vram) => Ok(vram),
        Err(_) => Err(NoMemory),
    }
}
