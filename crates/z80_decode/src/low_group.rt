ghost use Rattle.std.specs.Prelude.{◌≡◌};
ghost use Rattle.z80_decode.specs.Nested as nested;

use crate::fields::{condition_of, displaced, memory, pair_of, place, word};
use crate::{Decoded80, Index, Op80, Place8, Task80};

/// NOP, EX AF,AF', DJNZ and JR.
#[tactic(auto, unfolding(crate::specs::Nested::relative_jumps))]
fn relative_jumps(opcode: u8, first: u8) -> Decoded80
    ensures { result ≡ nested.relative_jumps opcode first }
{
    match opcode >> 3 & 7 {
        0 => Decoded80::plain(0, Op80::Nop),
        1 => Decoded80::plain(0, Op80::ExchangeAf),
        2 => Decoded80::plain(1, Op80::DecrementAndJump(first)),
        3 => Decoded80::plain(1, Op80::JumpRelative(first)),
        code => Decoded80::plain(1, Op80::JumpRelativeIf(condition_of(code & 3), first)),
    }
}

/// LD dd,nn and ADD HL,ss.
#[tactic(auto, unfolding(crate::specs::Nested::pair_loads))]
fn pair_loads(index: Index, opcode: u8, first: u8, second: u8) -> Decoded80
    ensures { result ≡ nested.pair_loads index opcode first second }
{
    let pair = pair_of(index, opcode >> 4 & 3);
    if opcode >> 3 & 1 == 1 {
        Decoded80::coded(index, 0, Op80::AddPair(index, pair))
    } else {
        Decoded80::coded(index, 2, Op80::LoadPair(pair, word(first, second)))
    }
}

/// LD of A and of HL from memory and to it.
#[tactic(auto, unfolding(crate::specs::Nested::memory_loads))]
fn memory_loads(index: Index, opcode: u8, first: u8, second: u8) -> Decoded80
    ensures { result ≡ nested.memory_loads index opcode first second }
{
    let address = word(first, second);
    match opcode >> 3 & 7 {
        0 => Decoded80::plain(0, Op80::Load(Place8::AtBc, Place8::A)),
        1 => Decoded80::plain(0, Op80::Load(Place8::A, Place8::AtBc)),
        2 => Decoded80::plain(0, Op80::Load(Place8::AtDe, Place8::A)),
        3 => Decoded80::plain(0, Op80::Load(Place8::A, Place8::AtDe)),
        4 => Decoded80::coded(index, 2, Op80::StoreIndex(address, index)),
        5 => Decoded80::coded(index, 2, Op80::LoadIndex(index, address)),
        6 => Decoded80::plain(2, Op80::Load(Place8::At(address), Place8::A)),
        _ => Decoded80::plain(2, Op80::Load(Place8::A, Place8::At(address))),
    }
}

/// INC and DEC of 16 bits.
#[tactic(auto, unfolding(crate::specs::Nested::pair_steps))]
fn pair_steps(index: Index, opcode: u8) -> Decoded80
    ensures { result ≡ nested.pair_steps index opcode }
{
    let pair = pair_of(index, opcode >> 4 & 3);
    if opcode >> 3 & 1 == 1 {
        Decoded80::coded(index, 0, Op80::DecrementPair(pair))
    } else {
        Decoded80::coded(index, 0, Op80::IncrementPair(pair))
    }
}

/// INC and DEC of 8 bits.
#[tactic(auto, unfolding(crate::specs::Nested::step))]
fn step(task: Task80, index: Index, opcode: u8, first: u8) -> Decoded80
    ensures { result ≡ nested.step task index opcode first }
{
    let code = opcode >> 3 & 7;
    Decoded80::coded(
        index,
        displaced(index, code),
        Op80::Step(task, place(index, code, first)),
    )
}

/// LD (HL),n: the number follows the displacement.
fn number_to_memory(index: Index, first: u8, second: u8) -> Decoded80
    ensures { result ≡ nested.number_to_memory index first second }
{
    match index {
        Index::Hl => Decoded80::plain(1, Op80::Load(Place8::AtHl, Place8::Number(first))),
        Index::Ix | Index::Iy => Decoded80::coded(
            index,
            2,
            Op80::Load(memory(index, first), Place8::Number(second)),
        ),
    }
}

/// LD r,n
#[tactic(auto, unfolding(crate::specs::Nested::number_loads))]
fn number_loads(index: Index, opcode: u8, first: u8, second: u8) -> Decoded80
    ensures { result ≡ nested.number_loads index opcode first second }
{
    match opcode >> 3 & 7 {
        6 => number_to_memory(index, first, second),
        code => Decoded80::coded(
            index,
            1,
            Op80::Load(place(index, code, 0), Place8::Number(first)),
        ),
    }
}

/// An operation on the accumulator and the flags alone.
#[tactic(auto, unfolding(crate::specs::Nested::accumulator))]
fn accumulator(code: u8) -> Task80
    ensures { result ≡ nested.accumulator code }
{
    match code {
        0 => Task80::Rlca,
        1 => Task80::Rrca,
        2 => Task80::Rla,
        3 => Task80::Rra,
        4 => Task80::Daa,
        5 => Task80::Cpl,
        6 => Task80::Scf,
        _ => Task80::Ccf,
    }
}

/// The opcodes 00h to 3Fh.
#[tactic(auto, unfolding(crate::specs::Nested::low_group))]
pub fn low_group(index: Index, opcode: u8, first: u8, second: u8) -> Decoded80
    ensures { result ≡ nested.low_group index opcode first second }
{
    match opcode & 7 {
        0 => relative_jumps(opcode, first),
        1 => pair_loads(index, opcode, first, second),
        2 => memory_loads(index, opcode, first, second),
        3 => pair_steps(index, opcode),
        4 => step(Task80::Inc, index, opcode, first),
        5 => step(Task80::Dec, index, opcode, first),
        6 => number_loads(index, opcode, first, second),
        _ => Decoded80::plain(0, Op80::Accumulator(accumulator(opcode >> 3 & 7))),
    }
}
