ghost use Rattle.std.specs.Prelude.{◌≡◌, ◌≤◌, ◌+◌, true, length, IfOk};
ghost use Rattle.save_state.specs.Layout as layout;
ghost use Rattle.save_state.specs.Layout.{are_ordered, state_size};

use bus_shared::{LINES_SIZE as BOARD_SIZE, STORE_SIZE};
use fm_chip::SYNTH_SIZE as FM_SIZE;
use fm_port::PORT_SIZE as FM_PORT_SIZE;
use m68k_chip::CHIP_SIZE as MAIN_SIZE;
use md_word::NoMemory;
use psg_sound::{PORT_SIZE as PSG_PORT_SIZE, SYNTH_SIZE as PSG_SIZE};
use std::alloc::Global;
use vdp_chip::RENDERER_STATE_SIZE as RENDERER_SIZE;
use vdp_ports::VDP_SIZE as VIDEO_SIZE;
use z80_chip::RAM_OFFSET as SUB_SIZE;

/// So many bytes of a saved state from an offset on.
#[derive(Clone, Copy)]
pub struct Part {
    pub place: usize,
    pub size: usize,
}

/// How many bytes each part has that is no chip's own, in their order; nothing is between the parts.
const MAGIC_SIZE: usize = 8;

const DIGEST_SIZE: usize = 32;

const AT_SIZE: usize = 8;

const REGION_SIZE: usize = 1;

const HOLDER_SIZE: usize = 1;

const FM_NEXT_SIZE: usize = 8;

const PSG_NEXT_SIZE: usize = 8;

/// The magic, with which a state begins.
pub const TEXT: [u8; 8] = *b"MDSTATE3";

/// Where it is.
pub const MAGIC: Part = Part {
    place: 0,
    size: MAGIC_SIZE,
};

/// The SHA-256 of the cartridge's image.
pub const DIGEST: Part = Part {
    place: MAGIC.place + MAGIC_SIZE,
    size: DIGEST_SIZE,
};

/// The cycle.
pub const AT: Part = Part {
    place: DIGEST.place + DIGEST_SIZE,
    size: AT_SIZE,
};

/// The region: 0 NTSC, 1 PAL.
pub const REGION: Part = Part {
    place: AT.place + AT_SIZE,
    size: REGION_SIZE,
};

/// The 68000.
pub const MAIN: Part = Part {
    place: REGION.place + REGION_SIZE,
    size: MAIN_SIZE,
};

/// The Z80's numbers.
pub const SUB: Part = Part {
    place: MAIN.place + MAIN_SIZE,
    size: SUB_SIZE,
};

/// Who has the Z80's RAM: 0 the Z80, 1 the bus.
pub const HOLDER: Part = Part {
    place: SUB.place + SUB_SIZE,
    size: HOLDER_SIZE,
};

/// RAM and bank register.
pub const STORE: Part = Part {
    place: HOLDER.place + HOLDER_SIZE,
    size: STORE_SIZE,
};

/// The VDP.
pub const VIDEO: Part = Part {
    place: STORE.place + STORE_SIZE,
    size: VIDEO_SIZE,
};

/// The VDP renderer.
pub const RENDERER: Part = Part {
    place: VIDEO.place + VIDEO_SIZE,
    size: RENDERER_SIZE,
};

/// The FM chip's port.
pub const FM_PORT: Part = Part {
    place: RENDERER.place + RENDERER_SIZE,
    size: FM_PORT_SIZE,
};

/// The FM chip's next batch.
pub const FM_NEXT: Part = Part {
    place: FM_PORT.place + FM_PORT_SIZE,
    size: FM_NEXT_SIZE,
};

/// The FM synthesis.
pub const FM: Part = Part {
    place: FM_NEXT.place + FM_NEXT_SIZE,
    size: FM_SIZE,
};

/// The PSG's next batch.
pub const PSG_NEXT: Part = Part {
    place: FM.place + FM_SIZE,
    size: PSG_NEXT_SIZE,
};

/// The PSG's port.
pub const PSG_PORT: Part = Part {
    place: PSG_NEXT.place + PSG_NEXT_SIZE,
    size: PSG_PORT_SIZE,
};

/// The PSG's synthesis.
pub const PSG: Part = Part {
    place: PSG_PORT.place + PSG_PORT_SIZE,
    size: PSG_SIZE,
};

/// The board's lines and pads.
pub const BOARD: Part = Part {
    place: PSG.place + PSG_SIZE,
    size: BOARD_SIZE,
};

/// The words of pad 1 and of pad 2 in it.
pub const PADS1: usize = BOARD.place + 14;

pub const PADS2: usize = BOARD.place + 16;

/// How many bytes a saved state has.
pub const LENGTH: usize = BOARD.place + BOARD.size;

/// How many bytes of a machine are put apart while it is written: those after the VDP that the bus keeps.
pub const APART: usize = FM_PORT.size + PSG_PORT.size + BOARD.size;

/// How many bytes the parts of an item have at most: those of the bus.
const GATHERED: usize = STORE.size + VIDEO.size + FM_PORT.size + PSG_PORT.size + BOARD.size;

static SUB_WITH_STORE: [Part; 2] = [SUB, STORE];

static SUB_ALONE: [Part; 1] = [SUB];

static SHARED_WITH_STORE: [Part; 5] = [STORE, VIDEO, FM_PORT, PSG_PORT, BOARD];

static SHARED_ALONE: [Part; 4] = [VIDEO, FM_PORT, PSG_PORT, BOARD];

/// The parts of what the Z80 keeps, by whether it has its RAM.
pub fn sub_parts(has: bool) -> &'static [Part]
    ensures parts { result.now ≡ layout.sub_parts has }
    ensures ordered { are_ordered 0 result.now ≡ true }
{
    if has { &SUB_WITH_STORE } else { &SUB_ALONE }
}

/// The parts of what the bus keeps, by whether it has the Z80's RAM.
pub fn shared_parts(has: bool) -> &'static [Part]
    ensures parts { result.now ≡ layout.shared_parts has }
    ensures ordered { are_ordered 0 result.now ≡ true }
{
    if has {
        &SHARED_WITH_STORE
    } else {
        &SHARED_ALONE
    }
}

impl Part {
    /// The bytes of the part.
    pub fn of<'a>(&self, bytes: &'a [u8]) -> &'a [u8]
        requires { self.now.place + self.now.size ≤ length bytes.now }
        ensures { result.now ≡ layout.part_of self.now bytes.now }
    {
        &bytes[self.place..self.place + self.size]
    }
}

/// The bytes of parts, one after another. It fails only when memory runs out.
pub fn gathered(alloc: Global, bytes: &[u8], parts: &[Part]) -> Result<Vec<u8>, NoMemory>
    requires whole { length bytes.now ≡ state_size }
    requires ordered { are_ordered 0 parts.now ≡ true }
    ensures { IfOk result (λ all. all.items ≡ layout.gathered parts.now bytes.now) }
{
    let mut all = Vec::with_capacity(alloc, GATHERED)?;
    let mut rest = parts;
    while let [part, after @ ..] = rest {
        all.extend_from_slice(part.of(bytes))?;
        rest = after;
    }
    Ok(all)
}

/// Where an offset of the bytes of parts is in the state.
pub fn place_of(parts: &[Part], place: u64) -> u64
    requires { are_ordered 0 parts.now ≡ true }
    ensures { result ≡ layout.place_of parts.now place }
{
    let mut left = place;
    let mut rest = parts;
    while let [part, after @ ..] = rest {
        let size = part.size as u64;
        if after.is_empty() || left < size {
            return part.place as u64 + left.min(size);
        }
        left -= size;
        rest = after;
    }
    0
}
