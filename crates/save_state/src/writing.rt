ghost use Rattle.std.specs.Prelude.{◌≡◌, ◌≤◌, ◌+◌, ◌-◌, ◌++◌, ◌∷◌, [], true, is_some, if◌then◌else◌, drop, take, length, vec_len, vec_capacity, IfOk};
ghost use Rattle.std.specs.Int.{w64, to_be_bytes};
ghost use Rattle.sha2.specs.Sha256.{sha256};
ghost use Rattle.bus_shared.specs.Board.{IsBoard};
ghost use Rattle.bus_shared.specs.Spelling as shared;
ghost use Rattle.fm_chip.specs.SynthSpelling as fm;
ghost use Rattle.psg_sound.specs.SynthSpelling as psg;
ghost use Rattle.z80_chip.specs.Validity.{IsChip80};
ghost use Rattle.z80_chip.specs.Spelling as sub;
ghost use Rattle.z80_chip.specs.Spelling.{ram_offset};
ghost use Rattle.vdp_ports.specs.Spelling.{vdp_bytes};
ghost use Rattle.md_chips.specs.Owners.{HasOneOwner};
ghost use Rattle.md_chips.specs.Starts as starts;
ghost use Rattle.save_state.specs.Layout.{apart_size, fm_port_there, lines_there, part_of, psg_port_there, sound_size, state_size};
ghost use Rattle.save_state.specs.Ready.{IsReady};
ghost use Rattle.md_word.specs.Clock.{last_cycle};
ghost use Rattle.md_word.specs.Coding.{flag_number};
ghost use Rattle.save_state.specs.States.{after_video, holder_of, mark, number_bytes, own_bytes, settled_console, state_bytes};
ghost use Rattle.save_state.specs.Versions.{IsState};

use crate::laws::kept;
use crate::layout::{APART, BOARD, FM_PORT, LENGTH, PSG_PORT, Part, SUB, TEXT};
use md_machine::{Machine, first_batch};
use md_word::NoMemory;
use sha2::{Digest, Sha256};
use std::alloc::Global;

/// The Z80's numbers, in what it keeps.
const NUMBERS_THERE: Part = Part {
    place: 0,
    size: SUB.size,
};

/// The parts of what the bus keeps after the VDP.
const FM_PORT_THERE: Part = Part {
    place: 0,
    size: FM_PORT.size,
};

const PSG_PORT_THERE: Part = Part {
    place: FM_PORT_THERE.size,
    size: PSG_PORT.size,
};

const LINES_THERE: Part = Part {
    place: PSG_PORT_THERE.place + PSG_PORT_THERE.size,
    size: BOARD.size,
};

/// The bytes of the machine at its cycle, as many as each state has where the Z80's RAM has one owner. Where
/// its parts may be kept, they are a saved state of its cartridge, which is read again. It fails only when
/// memory runs out.
pub fn write(alloc: Global, machine: &Machine) -> Result<Vec<u8>, NoMemory>
    requires { machine.now.at ≤ last_cycle }
    ensures bytes { IfOk result (λ bytes. bytes.items ≡ state_bytes machine.now.at machine.now.console) }
    ensures long { HasOneOwner machine.now.console → IfOk result (λ bytes. length bytes.items ≡ state_size) }
    ensures kept { IsReady machine.now.at machine.now.console
        → IfOk result (λ bytes. IsState machine.now.console.cart bytes.items (record { at = machine.now.at; console = settled_console machine.now.at machine.now.console })) }
{
    let digest = Sha256::digest(machine.cart().bytes());
    write_with(alloc, machine, &digest)
}

/// The same by the SHA-256 of the cartridge's image, for whoever writes many states of one cartridge. It fails
/// only when memory runs out.
pub fn write_with(alloc: Global, machine: &Machine, digest: &[u8; 32]) -> Result<Vec<u8>, NoMemory>
    requires cycle { machine.now.at ≤ last_cycle }
    requires digest { digest.now ≡ sha256 machine.now.console.cart }
    ensures bytes { IfOk result (λ bytes. bytes.items ≡ state_bytes machine.now.at machine.now.console) }
    ensures long { HasOneOwner machine.now.console → IfOk result (λ bytes. length bytes.items ≡ state_size) }
    ensures kept { IsReady machine.now.at machine.now.console
        → IfOk result (λ bytes. IsState machine.now.console.cart bytes.items (record { at = machine.now.at; console = settled_console machine.now.at machine.now.console })) }
{
    kept(machine);
    let mut apart = Vec::with_capacity(alloc, APART)?;
    let mut bytes = Vec::with_capacity(alloc, LENGTH)?;
    spell(machine, digest, &mut apart, &mut bytes);
    Ok(bytes)
}

/// Appends the same bytes without taking memory. `into` has room for them, and `apart` for the bytes of the bus
/// after the VDP, 22,594 at most, which wait there until the renderer is written.
pub fn spell(machine: &Machine, digest: &[u8; 32], apart: &mut Vec<u8>, into: &mut Vec<u8>)
    requires cycle { machine.now.at ≤ last_cycle }
    requires digest { digest.now ≡ sha256 machine.now.console.cart }
    requires apart { apart_size ≤ vec_capacity apart.old }
    requires room { vec_len into.old + state_size ≤ vec_capacity into.old }
    ensures bytes { into.new.items ≡ into.old.items ++ state_bytes machine.now.at machine.now.console }
    ensures length { HasOneOwner machine.now.console → vec_len into.new ≡ vec_len into.old + state_size }
    ensures room { vec_capacity into.old ≤ vec_capacity into.new }
    ensures apart { vec_capacity apart.old ≤ vec_capacity apart.new }
{
    let at = machine.at();
    put_head(machine, digest, into);
    machine.main_chip().spell(at, into);
    put_sub(machine, apart, into);
    put_board(machine, apart, into);
    machine.draw_chip().spell(at, into);
    put_sound(machine, apart.as_slice(), into);
}

/// Appends bytes, for which there is room.
fn put_bytes(bytes: &[u8], into: &mut Vec<u8>)
    requires { vec_len into.old + length bytes.now ≤ vec_capacity into.old }
    ensures bytes { into.new.items ≡ into.old.items ++ bytes.now }
    ensures length { vec_len into.new ≡ vec_len into.old + length bytes.now }
    ensures room { vec_capacity into.old ≤ vec_capacity into.new }
{
    let _room_is_there = into.extend_from_slice(bytes);
}

/// Appends a part of other bytes.
fn put_part(part: Part, bytes: &[u8], into: &mut Vec<u8>)
    requires there { part.place + part.size ≤ length bytes.now }
    requires room { vec_len into.old + part.size ≤ vec_capacity into.old }
    ensures bytes { into.new.items ≡ into.old.items ++ part_of part bytes.now }
    ensures length { vec_len into.new ≡ vec_len into.old + part.size }
    ensures room { vec_capacity into.old ≤ vec_capacity into.new }
{
    put_bytes(part.of(bytes), into);
}

/// Appends the header: the magic, the digest of the cartridge, the cycle and the region.
fn put_head(machine: &Machine, digest: &[u8; 32], into: &mut Vec<u8>)
    requires { vec_len into.old + 49 ≤ vec_capacity into.old }
    ensures bytes { into.new.items ≡ into.old.items ++ (mark ++ (digest.now ++ (to_be_bytes w64 machine.now.at ++ (flag_number machine.now.console.pal ∷ [])))) }
    ensures length { vec_len into.new ≡ vec_len into.old + 49 }
    ensures room { vec_capacity into.old ≤ vec_capacity into.new }
{
    put_bytes(&TEXT, into);
    put_bytes(digest, into);
    put_bytes(&machine.at().to_be_bytes(), into);
    put_bytes(&[u8::from(machine.pal())], into);
}

/// Appends the Z80's numbers, who has RAM and bank register, and those where the Z80 has them and the bus has not.
fn put_sub(machine: &Machine, apart: &mut Vec<u8>, into: &mut Vec<u8>)
    requires apart { apart_size ≤ vec_capacity apart.old }
    requires room { vec_len into.old + (sub.ram_offset + 1 + shared.store_size true) ≤ vec_capacity into.old }
    ensures bytes { into.new.items ≡ into.old.items ++ (number_bytes machine.now.console.sub.state ++ (holder_of machine.now.console ∷ own_bytes machine.now.console)) }
    ensures length { vec_len into.new ≡ vec_len into.old + ((sub.ram_offset + 1) + length (own_bytes machine.now.console)) }
    ensures few { length (own_bytes machine.now.console) ≤ shared.store_size true }
    ensures sub { IsChip80 machine.now.console.sub }
    ensures room { vec_capacity into.old ≤ vec_capacity into.new }
    ensures apart { vec_capacity apart.old ≤ vec_capacity apart.new }
{
    let has = machine.shared().has_store();
    spell_sub(machine, apart);
    put_part(NUMBERS_THERE, apart.as_slice(), into);
    put_bytes(&[u8::from(has)], into);
    put_bytes(own_of(has, apart.as_slice()), into);
}

/// Makes a list what the Z80 keeps.
fn spell_sub(machine: &Machine, apart: &mut Vec<u8>)
    requires { apart_size ≤ vec_capacity apart.old }
    ensures bytes { apart.new.items ≡ sub.chip_bytes machine.now.console.sub.state }
    ensures long { length apart.new.items ≡ sub.spelled_size (is_some machine.now.console.sub.state.store) }
    ensures sub { IsChip80 machine.now.console.sub }
    ensures apart { vec_capacity apart.old ≤ vec_capacity apart.new }
{
    machine.sub_chip().next();
    apart.clear();
    machine.sub_chip().spell(machine.at(), apart);
}

/// RAM and bank register in what the Z80 keeps, where the bus has none.
fn own_of(has: bool, sub: &[u8]) -> &[u8]
    requires { ram_offset ≤ length sub.now }
    ensures { result.now ≡ (if has then [] else drop ram_offset sub.now) }
{
    if has { &[] } else { &sub[SUB.size..] }
}

/// Appends what the bus keeps, as it is once it is settled to the cycle, and cuts off what follows the VDP, which
/// is put apart: the renderer comes first.
fn put_board(machine: &Machine, apart: &mut Vec<u8>, into: &mut Vec<u8>)
    requires cycle { machine.now.at ≤ last_cycle }
    requires apart { apart_size ≤ vec_capacity apart.old }
    requires room { vec_len into.old + shared.board_size (is_some machine.now.console.shared.store) ≤ vec_capacity into.old }
    ensures bytes { into.new.items ≡ into.old.items ++ (shared.store_bytes machine.now.console.shared.store ++ vdp_bytes (shared.settled_board machine.now.at machine.now.console.shared).vdp) }
    ensures following { apart.new.items ≡ after_video machine.now.at machine.now.console.shared }
    ensures length { vec_len into.new + apart_size ≡ vec_len into.old + shared.board_size (is_some machine.now.console.shared.store) }
    ensures board { IsBoard machine.now.console.shared }
    ensures room { vec_capacity into.old ≤ vec_capacity into.new }
    ensures apart { vec_capacity apart.old ≤ vec_capacity apart.new }
{
    machine.shared().known();
    machine.shared().spell(machine.at(), into);
    cut_off(into, apart);
}

/// Cuts off what follows the VDP, the last bytes of a list, and makes another one of them.
fn cut_off(into: &mut Vec<u8>, apart: &mut Vec<u8>)
    requires long { apart_size ≤ vec_len into.old }
    requires room { apart_size ≤ vec_capacity apart.old }
    ensures front { into.new.items ≡ take (vec_len into.old - apart_size) into.old.items }
    ensures back { apart.new.items ≡ drop (vec_len into.old - apart_size) into.old.items }
    ensures length { vec_len into.new + apart_size ≡ vec_len into.old }
    ensures room { vec_capacity into.old ≤ vec_capacity into.new }
    ensures apart { vec_capacity apart.old ≤ vec_capacity apart.new }
{
    let from = into.len() - APART;
    apart.clear();
    put_bytes(&into[from..], apart);
    into.truncate(from);
}

/// Appends the sound chips: ports, which the bus keeps, next batches and syntheses, and the lines after them.
fn put_sound(machine: &Machine, following: &[u8], into: &mut Vec<u8>)
    requires cycle { machine.now.at ≤ last_cycle }
    requires following { length following.now ≡ apart_size }
    requires room { vec_len into.old + sound_size ≤ vec_capacity into.old }
    ensures bytes { let batch = to_be_bytes w64 (starts.first_batch machine.now.at) in
        into.new.items ≡ into.old.items ++ (part_of fm_port_there following.now ++ (batch ++ (fm.synth_bytes machine.now.console.fm
        ++ (batch ++ (part_of psg_port_there following.now ++ (psg.synth_bytes machine.now.console.psg ++ part_of lines_there following.now)))))) }
    ensures length { vec_len into.new ≡ vec_len into.old + sound_size }
    ensures room { vec_capacity into.old ≤ vec_capacity into.new }
{
    let at = machine.at();
    let batch = first_batch(at).to_be_bytes();
    put_part(FM_PORT_THERE, following, into);
    put_bytes(&batch, into);
    machine.fm().spell(at, into);
    put_bytes(&batch, into);
    put_part(PSG_PORT_THERE, following, into);
    machine.psg().spell(at, into);
    put_part(LINES_THERE, following, into);
}
