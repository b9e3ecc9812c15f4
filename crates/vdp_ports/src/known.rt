//! What holds of the numbers of every VDP: they fit the bytes that they take.
ghost use Rattle.std.specs.Prelude.{◌≡◌, ◌^◌, ◌<◌, ℕ, length, slice_index};
ghost use Rattle.vdp_ports.specs.Vdp.{IsVdp, vram_size};

use crate::dma::Rest;
use crate::state::{VRAM_SIZE, VdpState};

/// Each word has two bytes.
fn known_words(words: &[u16])
    ensures { (k : ℕ) → slice_index words.now k < 2 ^ 16 }
{
    let _words = words;
}

/// Registers and memories have their sizes; a colour and a scroll have two bytes.
pub fn known_memories(state: &VdpState)
    ensures sizes { IsVdp state.now.registers state.now.vram state.now.cram state.now.vsram }
    ensures cram { (k : ℕ) → slice_index state.now.cram k < 2 ^ 16 }
    ensures vsram { (k : ℕ) → slice_index state.now.vsram k < 2 ^ 16 }
{
    known_words(&state.cram);
    known_words(&state.vsram);
}

/// The code has a byte, the address two.
pub fn known_port(state: &VdpState)
    ensures code { state.now.code < 2 ^ 8 }
    ensures a { state.now.a < 2 ^ 16 }
    ensures line_counter { state.now.line_counter < 2 ^ 8 }
{
    let _code = state.code;
    let _a = state.a;
    let _line_counter = state.line_counter;
}

/// The same of a fill or copy.
pub fn known_dma(state: &VdpState)
    ensures dma_kind { state.now.dma_kind < 2 ^ 8 }
    ensures byte { state.now.byte < 2 ^ 8 }
    ensures source { state.now.source < 2 ^ 16 }
    ensures address { state.now.address < 2 ^ 16 }
    ensures left { state.now.left < 2 ^ 32 }
    ensures next_stamp { state.now.next_stamp < 2 ^ 64 }
{
    let _dma_kind = state.dma_kind;
    let _byte = state.byte;
    let _source = state.source;
    let _address = state.address;
    let _left = state.left;
    let _next_stamp = state.next_stamp;
}

/// Cycles have eight bytes.
pub fn known_interval(state: &VdpState)
    ensures int_from { state.now.int_from < 2 ^ 64 }
    ensures int_to { state.now.int_to < 2 ^ 64 }
{
    let _int_from = state.int_from;
    let _int_to = state.int_to;
}

/// Another memory has the size of VRAM.
pub fn known_size(vram: &[u8; VRAM_SIZE])
    ensures { length vram.now ≡ vram_size }
{
    let _vram = vram;
}

/// Another rest of a fill or copy fits its bytes too.
pub fn known_rest(rest: &Rest)
    ensures dma_kind { rest.now.dma_kind < 2 ^ 8 }
    ensures byte { rest.now.byte < 2 ^ 8 }
    ensures source { rest.now.source < 2 ^ 16 }
    ensures address { rest.now.address < 2 ^ 16 }
    ensures left { rest.now.left < 2 ^ 32 }
    ensures next_stamp { rest.now.next_stamp < 2 ^ 64 }
{
    let _dma_kind = rest.dma_kind;
    let _byte = rest.byte;
    let _source = rest.source;
    let _address = rest.address;
    let _left = rest.left;
    let _next_stamp = rest.next_stamp;
}
