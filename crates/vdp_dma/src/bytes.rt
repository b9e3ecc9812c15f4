ghost use Rattle.std.specs.Prelude.{◌≡◌, ◌+◌, ◌*◌, ◌<◌, ◌≤◌, ◌++◌, ℕ, List, length, vec_capacity, vec_len};
ghost use Rattle.md_word.specs.Clock.{cycle_limit};
ghost use Rattle.vdp_ports.specs.Dma.{with_rest};
ghost use Rattle.vdp_ports.specs.Spelling.{Spells, vdp_bytes, vdp_size};
ghost use Rattle.vdp_ports.specs.Vdp.{Vdp, vram_size};
ghost use Rattle.vdp_ports.specs.Pins.{HasSamePins};
ghost use Rattle.vdp_ports.specs.Rules.{HasRules};
ghost use Rattle.vdp_ports.specs.Data.{transferred};
ghost use Rattle.vdp_dma.specs.Settling as meaning;

use vdp_ports::register::INCREMENT;
use vdp_ports::{COPY, COPY_STEP, FILL_STEP, NO_DMA, Rest, VRAM_SIZE, VdpState, other_byte};

/// How many bytes of a saved state keep the registers. VRAM is after them.
const REGISTERS: usize = 24;

/// Master cycles from one byte to the next.
#[tactic(auto, unfolding(crate::specs::Settling::step))]
fn step(state: &VdpState) -> u64
    ensures value { result ≡ meaning.step state.now }
    ensures least { 0 < result }
    ensures most { result ≤ 34 }
{
    if state.dma_kind == COPY {
        COPY_STEP
    } else {
        FILL_STEP
    }
}

/// The running address before byte k.
#[tactic(auto, unfolding(crate::specs::Settling::running))]
fn running(state: &VdpState, k: u32) -> u16
    ensures { result ≡ meaning.running state.now k }
{
    ((u64::from(state.address) + u64::from(state.registers[INCREMENT]) * u64::from(k))
        % 0x1_0000) as u16
}

/// Byte k of what is left: its address, and its value over a memory.
#[tactic(auto, unfolding(crate::specs::Settling::write))]
#[inline]
fn write_of(state: &VdpState, k: u32, vram: &[u8]) -> (u16, u8)
    requires { length vram.now ≡ vram_size }
    ensures address { result.0 ≡ (meaning.write state.now k vram.now).address }
    ensures byte { result.1 ≡ (meaning.write state.now k vram.now).byte }
{
    let address = running(state, k);
    if state.dma_kind == COPY {
        let from = (u64::from(state.source) + u64::from(k)) % 0x1_0000;
        (address, vram[from as usize])
    } else {
        (other_byte(address), state.byte)
    }
}

/// Writes byte k of what is left into VRAM.
fn put_one(state: &mut VdpState, k: u32)
    ensures { state.new ≡ record state.old { vram = meaning.done state.old.vram (meaning.write state.old k state.old.vram) } }
{
    let (address, byte) = write_of(state, k, &state.vram[..]);
    state.vram[usize::from(address)] = byte;
}

/// How many of the bytes that are left are stamped below a cycle.
#[tactic(auto, using(crate::proofs::Counts::due_count), unfolding(crate::proofs::Counts::count, crate::proofs::Counts::below_by))]
fn due(state: &VdpState, cycle: u64) -> u32
    ensures value { result ≡ length (meaning.due cycle state.now) }
    ensures most { result ≤ state.now.left }
    ensures below { 0 < result → state.now.next_stamp < cycle }
{
    if state.left == 0 || state.next_stamp >= cycle {
        return 0;
    }
    u64::from(state.left).min((cycle - 1 - state.next_stamp) / step(state) + 1) as u32
}

/// Whether a byte of a fill or copy stamped at the cycle or later is left.
#[tactic(auto, unfolding(crate::specs::Settling::is_busy))]
pub fn busy(state: &VdpState, cycle: u64) -> bool
    ensures { result ≡ meaning.is_busy cycle state.now }
{
    due(state, cycle) < state.left
}

/// Writes the next bytes into VRAM.
#[tactic(auto, unfolding(crate::specs::Settling::vram_after))]
fn put_bytes(state: &mut VdpState, count: u32)
    ensures { state.new ≡ record state.old { vram = meaning.vram_after state.old count } }
{
    for k in 0..count {
        put_one(state, k);
    }
}

/// Counts the bytes that were written; some are left.
#[tactic(auto, unfolding(crate::specs::Settling::moved))]
fn go_on(state: &mut VdpState, count: u32)
    requires left { count < state.old.left }
    requires stamp { state.old.next_stamp ≤ cycle_limit }
    ensures { state.new ≡ meaning.moved count state.old.vram state.old }
{
    let address = running(state, count);
    let cycles = step(state) * u64::from(count);
    if state.dma_kind == COPY {
        state.source = ((u64::from(state.source) + u64::from(count)) % 0x1_0000) as u16;
    }
    state.address = address;
    state.left -= count;
    state.next_stamp += cycles;
}

/// Ends a fill or copy of which no byte is left.
#[tactic(auto, unfolding(crate::specs::Settling::finished))]
fn finish(state: &mut VdpState)
    ensures { state.new ≡ meaning.finished state.old.vram state.old }
{
    state.dma_kind = NO_DMA;
    state.byte = 0;
    state.source = 0;
    state.address = 0;
    state.left = 0;
    state.next_stamp = 0;
}

/// Writes the bytes that are due. `settle` promises more of it.
#[tactic(auto, using(crate::proofs::Settled::settled_none, crate::proofs::Settled::settled_some, crate::proofs::Settled::settled_all))]
fn make_due(state: &mut VdpState, cycle: u64)
    requires { cycle ≤ cycle_limit }
    ensures { state.new ≡ meaning.settled cycle state.old }
{
    let count = due(state, cycle);
    if count == 0 {
        return;
    }
    put_bytes(state, count);
    if count < state.left {
        go_on(state, count);
    } else {
        finish(state);
    }
}

/// Writes the bytes of a fill or copy that are stamped below a master cycle. To settle at an earlier cycle
/// before changes nothing, and where bytes are left, the next one is not due.
///
/// It takes the time of the bytes that it writes, and of one test where there is none.
#[inline]
pub fn settle(state: &mut VdpState, cycle: u64)
    requires { cycle ≤ cycle_limit }
    ensures value { state.new ≡ meaning.settled cycle state.old }
    ensures again { (earlier : ℕ) (before : Vdp) → earlier ≤ cycle → state.old ≡ meaning.settled earlier before → state.new ≡ meaning.settled cycle before }
    ensures next { 0 < state.new.left → cycle ≤ state.new.next_stamp }
    ensures rules { (at : ℕ) → at ≤ cycle → HasRules at state.old → HasRules cycle state.new }
    ensures pins { HasSamePins state.old state.new }
{
    make_due(state, cycle);
}

/// A word of a transfer: a data write that starts no armed fill. Fill and copy are settled to its
/// cycle.
pub fn transfer_word(state: &mut VdpState, word: u16)
    ensures value { state.new ≡ transferred word state.old }
    ensures rules { (at : ℕ) → HasRules at state.old → HasRules at state.new }
    ensures pins { HasSamePins state.old state.new }
{
    state.transfer(word);
}

/// Writes the next bytes into a copy of VRAM.
#[tactic(auto, unfolding(crate::specs::Settling::vram_after))]
fn put_into(state: &VdpState, count: u32, vram: &mut [u8])
    requires copy { vram.old ≡ state.now.vram }
    requires whole { length vram.old ≡ vram_size }
    ensures value { vram.new ≡ meaning.vram_after state.now count }
    ensures length { length vram.new ≡ vram_size }
{
    for k in 0..count {
        let (address, byte) = write_of(state, k, vram);
        vram[usize::from(address)] = byte;
    }
}

/// What is left once the next bytes were written.
#[tactic(auto, unfolding(crate::specs::Settling::advanced, crate::specs::Settling::moved, crate::specs::Settling::finished))]
fn rest_after(state: &VdpState, count: u32) -> Rest
    requires { state.now.next_stamp ≤ cycle_limit }
    ensures { (vram : List ℕ) → with_rest state.now vram result ≡ meaning.advanced count vram state.now }
{
    if count >= state.left {
        return Rest {
            dma_kind: NO_DMA,
            byte: 0,
            source: 0,
            address: 0,
            left: 0,
            next_stamp: 0,
        };
    }
    let source = if state.dma_kind == COPY {
        ((u64::from(state.source) + u64::from(count)) % 0x1_0000) as u16
    } else {
        state.source
    };
    Rest {
        source,
        address: running(state, count),
        left: state.left - count,
        next_stamp: state.next_stamp + step(state) * u64::from(count),
        ..state.rest()
    }
}

/// Appends the bytes of a saved state at a cycle that keep this VDP, 65,813 in all, as once its fill or
/// copy is settled to the cycle. There is room for them. They are read again where the rules hold at an
/// earlier cycle. The VDP does not change.
pub fn spell(state: &VdpState, at: u64, into: &mut Vec<u8>)
    requires cycle { at ≤ cycle_limit }
    requires room { vec_len into.old + vdp_size ≤ vec_capacity into.old }
    ensures bytes { into.new.items ≡ into.old.items ++ vdp_bytes (meaning.settled at state.now) }
    ensures length { vec_len into.new ≡ vec_len into.old + vdp_size }
    ensures room { vec_capacity into.old ≤ vec_capacity into.new }
    ensures kept { (earlier : ℕ) → earlier ≤ at → HasRules earlier state.now
        → Spells at state.now.pal (vdp_bytes (meaning.settled at state.now)) (meaning.settled at state.now) }
{
    let count = due(state, at);
    if count == 0 {
        state.spell(at, into);
        return;
    }
    is_read_again(state);
    let from = into.len() + REGISTERS;
    state.spell_with(&state.vram, rest_after(state, count), at, into);
    put_into(state, count, &mut into[from..from + VRAM_SIZE]);
}

/// States that the bytes of this VDP, settled to a cycle, are read again where the rules hold at an earlier
/// cycle.
pub fn is_read_again(state: &VdpState)
    ensures { (earlier at : ℕ) → earlier ≤ at → at ≤ cycle_limit → HasRules earlier state.now
        → Spells at state.now.pal (vdp_bytes (meaning.settled at state.now)) (meaning.settled at state.now) }
{
    state.known();
}
