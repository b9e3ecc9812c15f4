ghost use Rattle.std.specs.Prelude.{◌≡◌, ◌≤◌, ◌^◌, ◌==◌, ℕ, false, length, IfOk};
ghost use Rattle.std.specs.Arc.{arc_value};
ghost use Rattle.save_state.specs.Items as items;
ghost use Rattle.save_state.specs.Items.{at_of, region_of, HasLateFm, HasLatePsg, IsMain, MainFails, IsSub, SubFails, IsShared, SharedFails, IsPicture, RendererStateFails, IsFm, FmFails, IsPsg, PsgFails};
ghost use Rattle.save_state.specs.Joining.{Reads};
ghost use Rattle.save_state.specs.Layout.{state_size};
ghost use Rattle.save_state.specs.States as states;
ghost use Rattle.md_word.specs.Clock.{last_cycle};

use crate::joining::{placed, with_rule};
use crate::layout::{
    BOARD, FM, FM_NEXT, FM_PORT, HOLDER, MAIN, PSG, PSG_NEXT, PSG_PORT, RENDERER, SUB, gathered,
    shared_parts, sub_parts,
};
use bus_shared::Shared;
use fm_chip::FmSynth;
use fm_port::{COUNT_OFFSET as FM_COUNT, FmPort};
use m68k_chip::Chip68;
use md_fields::{u8_at, u16_at, u64_at};
use md_machine::first_batch;
use md_pads::Recording;
use md_word::{NoMemory, Unspell};
use psg_sound::{PsgPort, PsgSynth};
use rom_header::Cart;
use std::alloc::Global;
use std::sync::Arc;
use vdp_chip::ChipVdp;
use z80_chip::Chip80;

/// Where the number of the Z80's stage is, and how many resets it has seen.
const STAGE: usize = SUB.place + 8;

const SEEN_RESETS: usize = SUB.place + 48;

/// Where the count of resets is, and that of the FM chip's writes.
const RESETS: usize = BOARD.place + 2;

const FM_WRITES: usize = FM_PORT.place + FM_COUNT;

/// Where the count of writes is in what keeps the PSG's port.
const PSG_COUNT: usize = 0;

/// Whether who has the Z80's RAM fits its stage: at an access and a yield the Z80 has it, and the bus
/// at a take.
fn is_holder(holder: u8, stage: u8) -> bool
    ensures { result ≡ states.is_holder holder stage }
{
    match stage {
        1 | 2 => holder == 0,
        3 => holder == 1,
        _ => holder <= 1,
    }
}

/// Whether the FM chip's writes that the bytes keep are well before the next events of their processors; where
/// there is none nothing else is read. Bytes that keep no port are refused elsewhere. It fails only when memory
/// runs out.
#[inline(never)]
fn are_fm_writes_early(alloc: Global, bytes: &[u8], at: u64) -> Result<bool, NoMemory>
    requires whole { length bytes.now ≡ state_size }
    requires cycle { at ≡ at_of bytes.now }
    requires near { at ≤ last_cycle }
    ensures late { IfOk result (λ early. early ≡ false → HasLateFm bytes.now) }
    ensures reported { IfOk result (λ early. HasLateFm bytes.now → early ≡ false) }
{
    let part = FM_PORT.of(bytes);
    if u16_at(part, FM_COUNT) == 0 {
        return Ok(true);
    }
    let mut port = Box::new(alloc, FmPort::power_on())?;
    Ok(are_early_in_fm(&mut port, bytes, at))
}

/// The same by a port that is made the one that the bytes keep.
fn are_early_in_fm(port: &mut FmPort, bytes: &[u8], at: u64) -> bool
    requires whole { length bytes.now ≡ state_size }
    requires cycle { at ≡ at_of bytes.now }
    requires near { at ≤ last_cycle }
    ensures late { result ≡ false → HasLateFm bytes.now }
    ensures reported { HasLateFm bytes.now → result ≡ false }
{
    match port.restore(FM_PORT.of(bytes), at) {
        Ok(()) => port.is_before_next(u64_at(bytes, MAIN.place), u64_at(bytes, SUB.place)),
        Err(_) => true,
    }
}

/// The same of the PSG's writes. It fails only when memory runs out.
#[inline(never)]
fn are_psg_writes_early(alloc: Global, bytes: &[u8], at: u64) -> Result<bool, NoMemory>
    requires whole { length bytes.now ≡ state_size }
    requires cycle { at ≡ at_of bytes.now }
    ensures late { IfOk result (λ early. early ≡ false → HasLatePsg bytes.now) }
    ensures reported { IfOk result (λ early. HasLatePsg bytes.now → early ≡ false) }
{
    let part = PSG_PORT.of(bytes);
    if u16_at(part, PSG_COUNT) == 0 {
        return Ok(true);
    }
    let mut port = Box::new(alloc, PsgPort::power_on())?;
    Ok(are_early_in_psg(&mut port, bytes, at))
}

/// The same by a port that is made the one that the bytes keep.
fn are_early_in_psg(port: &mut PsgPort, bytes: &[u8], at: u64) -> bool
    requires whole { length bytes.now ≡ state_size }
    requires cycle { at ≡ at_of bytes.now }
    ensures late { result ≡ false → HasLatePsg bytes.now }
    ensures reported { HasLatePsg bytes.now → result ≡ false }
{
    match port.restore(PSG_PORT.of(bytes), at) {
        Ok(()) => port.is_before_next(u64_at(bytes, MAIN.place), u64_at(bytes, SUB.place)),
        Err(_) => true,
    }
}

/// The 68000. It fails at the least offset in the state of a field that breaks its rule, or when memory runs
/// out.
#[inline(never)]
pub fn read_main(alloc: Global, bytes: &[u8], at: u64, cart: Arc<Cart>) -> Result<Chip68, Unspell>
    requires whole { length bytes.now ≡ state_size }
    requires cycle { at ≡ at_of bytes.now }
    ensures { Reads (IsMain (arc_value cart) bytes.now) (MainFails (arc_value cart) bytes.now) result }
{
    placed(&[MAIN], Chip68::unspell(alloc, MAIN.of(bytes), at, cart))
}

/// The Z80, with its RAM where the holder is 0. It fails at the least offset in the state of a field that
/// breaks its rule, or when memory runs out.
#[inline(never)]
pub fn read_sub(alloc: Global, bytes: &[u8], at: u64, cart: Arc<Cart>) -> Result<Chip80, Unspell>
    requires whole { length bytes.now ≡ state_size }
    requires cycle { at ≡ at_of bytes.now }
    ensures { Reads (IsSub (arc_value cart) bytes.now) (SubFails (arc_value cart) bytes.now) result }
{
    let holder = u8_at(bytes, HOLDER.place);
    let parts = sub_parts(holder == 0);
    let kept = gathered(alloc, bytes, parts)?;
    let chip = placed(parts, Chip80::unspell(alloc, kept.as_slice(), at, cart));
    with_rule(chip, is_holder(holder, u8_at(bytes, STAGE)), HOLDER.place)
}

/// The board of a region, with the Z80's RAM where the holder is 1. It fails at the least offset in the state
/// of a field that breaks its rule, or when memory runs out.
#[inline(never)]
pub fn read_shared(
    alloc: Global,
    bytes: &[u8],
    at: u64,
    pal: bool,
    recording: Arc<Recording>,
) -> Result<Shared, Unspell>
    requires whole { length bytes.now ≡ state_size }
    requires cycle { at ≡ at_of bytes.now }
    requires region { pal ≡ region_of bytes.now }
    requires near { at ≤ last_cycle }
    ensures { Reads (IsShared (arc_value recording) bytes.now) (SharedFails bytes.now) result }
{
    let parts = shared_parts(u8_at(bytes, HOLDER.place) == 1);
    let kept = gathered(alloc, bytes, parts)?;
    let shared = placed(
        parts,
        Shared::unspell(alloc, kept.as_slice(), at, recording, pal),
    );
    with_rule(
        shared,
        u64_at(bytes, SEEN_RESETS) <= u64_at(bytes, RESETS),
        RESETS,
    )
}

/// The VDP renderer, of a region. It fails at the least offset in the state of a field that breaks its rule, or
/// when memory runs out.
#[inline(never)]
pub fn read_renderer_state(
    alloc: Global,
    bytes: &[u8],
    at: u64,
    pal: bool,
) -> Result<ChipVdp, Unspell>
    requires whole { length bytes.now ≡ state_size }
    requires cycle { at ≡ at_of bytes.now }
    requires region { pal ≡ region_of bytes.now }
    ensures { Reads (IsPicture bytes.now) (RendererStateFails bytes.now) result }
{
    placed(
        &[RENDERER],
        ChipVdp::unspell(alloc, RENDERER.of(bytes), at, pal),
    )
}

/// The FM synthesis, with its next batch and the writes that its port holds. It fails at the least offset in
/// the state of a field that breaks its rule, or when memory runs out.
pub fn read_fm(alloc: Global, bytes: &[u8], at: u64) -> Result<FmSynth, Unspell>
    requires whole { length bytes.now ≡ state_size }
    requires cycle { at ≡ at_of bytes.now }
    requires near { at ≤ last_cycle }
    ensures { Reads (IsFm bytes.now) (FmFails bytes.now) result }
{
    let synth = placed(&[FM], FmSynth::unspell(alloc, FM.of(bytes), at));
    let is_next = u64_at(bytes, FM_NEXT.place) == first_batch(at);
    let synth = with_rule(synth, is_next, FM_NEXT.place);
    let early = are_fm_writes_early(alloc, bytes, at)?;
    with_rule(synth, early, FM_WRITES)
}

/// The PSG's synthesis, with its next batch and the writes that its port holds. It fails at the least offset in
/// the state of a field that breaks its rule, or when memory runs out.
pub fn read_psg(alloc: Global, bytes: &[u8], at: u64) -> Result<PsgSynth, Unspell>
    requires whole { length bytes.now ≡ state_size }
    requires cycle { at ≡ at_of bytes.now }
    requires near { at ≤ last_cycle }
    ensures { Reads (IsPsg bytes.now) (PsgFails bytes.now) result }
{
    let synth = placed(&[PSG], PsgSynth::unspell(alloc, PSG.of(bytes), at));
    let is_next = u64_at(bytes, PSG_NEXT.place) == first_batch(at);
    let synth = with_rule(synth, is_next, PSG_NEXT.place);
    let early = are_psg_writes_early(alloc, bytes, at)?;
    with_rule(synth, early, PSG_PORT.place)
}
