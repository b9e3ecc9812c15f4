ghost use Rattle.std.specs.Prelude.{◌≡◌};
ghost use Rattle.z80_decode.specs.Nested as nested;

use crate::fields::{arithmetic, condition_of, stacked, word};
use crate::{Decoded80, Index, Op80, Place8};

/// POP, RET, EXX, JP (HL) and LD SP,HL.
#[tactic(auto, unfolding(crate::specs::Nested::returns))]
fn returns(index: Index, opcode: u8) -> Decoded80
    ensures { result ≡ nested.returns index opcode }
{
    let code = opcode >> 4 & 3;
    if opcode >> 3 & 1 == 0 {
        return Decoded80::coded(index, 0, Op80::Pop(stacked(index, code)));
    }
    match code {
        0 => Decoded80::plain(0, Op80::Return),
        1 => Decoded80::plain(0, Op80::ExchangeAll),
        2 => Decoded80::coded(index, 0, Op80::JumpIndex(index)),
        _ => Decoded80::coded(index, 0, Op80::LoadStackPointer(index)),
    }
}

/// JP nn, ports, exchanges, DI and EI. CBh, of this form, is a prefix.
#[tactic(auto, unfolding(crate::specs::Nested::jumps))]
fn jumps(index: Index, opcode: u8, first: u8, second: u8) -> Decoded80
    ensures { result ≡ nested.jumps index opcode first second }
{
    match opcode >> 3 & 7 {
        2 => Decoded80::plain(1, Op80::OutputAtNumber(first)),
        3 => Decoded80::plain(1, Op80::InputAtNumber(first)),
        4 => Decoded80::coded(index, 0, Op80::ExchangeStack(index)),
        5 => Decoded80::plain(0, Op80::ExchangeDeHl),
        6 => Decoded80::plain(0, Op80::DisableInterrupts),
        7 => Decoded80::plain(0, Op80::EnableInterrupts),
        _ => Decoded80::plain(2, Op80::Jump(word(first, second))),
    }
}

/// PUSH and CALL. DDh, EDh and FDh, of the form of CALL, are prefixes.
#[tactic(auto, unfolding(crate::specs::Nested::calls))]
fn calls(index: Index, opcode: u8, first: u8, second: u8) -> Decoded80
    ensures { result ≡ nested.calls index opcode first second }
{
    if opcode >> 3 & 1 == 1 {
        Decoded80::plain(2, Op80::Call(word(first, second)))
    } else {
        Decoded80::coded(index, 0, Op80::Push(stacked(index, opcode >> 4 & 3)))
    }
}

/// The opcodes C0h to FFh.
#[tactic(auto, unfolding(crate::specs::Nested::control))]
pub fn control(index: Index, opcode: u8, first: u8, second: u8) -> Decoded80
    ensures { result ≡ nested.control index opcode first second }
{
    let code = opcode >> 3 & 7;
    match opcode & 7 {
        0 => Decoded80::plain(0, Op80::ReturnIf(condition_of(code))),
        1 => returns(index, opcode),
        2 => Decoded80::plain(2, Op80::JumpIf(condition_of(code), word(first, second))),
        3 => jumps(index, opcode, first, second),
        4 => Decoded80::plain(2, Op80::CallIf(condition_of(code), word(first, second))),
        5 => calls(index, opcode, first, second),
        6 => Decoded80::plain(1, Op80::Arithmetic(arithmetic(code), Place8::Number(first))),
        _ => Decoded80::plain(0, Op80::Restart(8 * code)),
    }
}
