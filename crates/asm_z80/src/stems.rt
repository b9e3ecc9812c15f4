ghost use Rattle.std.specs.Prelude.{◌≡◌, map};
ghost use Rattle.asm_z80.specs.Building as building;
ghost use Rattle.asm_z80.specs.Entered.{entered};

use crate::mnemonic::Mnemonic80;
use z80_decode::{Block, Op80, Task80};

/// A mnemonic as it is written, and its meaning.
#[derive(Clone, Copy)]
pub(crate) struct Named(&'static [u8], Mnemonic80);

/// The meaning of a text among these mnemonics, else NOP.
#[tactic(auto, unfolding(crate::specs::Building::mnemonic_in))]
fn mnemonic_in(names: &[Named], text: &[u8]) -> Mnemonic80
    ensures { result ≡ building.mnemonic_in (map entered names.now) text.now }
{
    let mut rest = names;
    while let [Named(name, mnemonic), after @ ..] = rest {
        if *name == text {
            return *mnemonic;
        }
        rest = after;
    }
    Mnemonic80::Alone(Op80::Nop)
}

/// The mnemonics of the Z80. Zilog UM0080, "Z80 Instruction Description"; for `sll`, this project's profile.
static NAMES: [Named; 68] = [
    Named(b"adc", Mnemonic80::AddWithCarry),
    Named(b"add", Mnemonic80::Add),
    Named(b"and", Mnemonic80::Arithmetic(Task80::And)),
    Named(b"bit", Mnemonic80::TestBit),
    Named(b"call", Mnemonic80::Call),
    Named(b"ccf", Mnemonic80::Alone(Op80::Accumulator(Task80::Ccf))),
    Named(b"cp", Mnemonic80::Arithmetic(Task80::Cp)),
    Named(
        b"cpd",
        Mnemonic80::Alone(Op80::BlockCompare(Block::Decrement)),
    ),
    Named(
        b"cpdr",
        Mnemonic80::Alone(Op80::BlockCompare(Block::DecrementRepeat)),
    ),
    Named(
        b"cpi",
        Mnemonic80::Alone(Op80::BlockCompare(Block::Increment)),
    ),
    Named(
        b"cpir",
        Mnemonic80::Alone(Op80::BlockCompare(Block::IncrementRepeat)),
    ),
    Named(b"cpl", Mnemonic80::Alone(Op80::Accumulator(Task80::Cpl))),
    Named(b"daa", Mnemonic80::Alone(Op80::Accumulator(Task80::Daa))),
    Named(b"dec", Mnemonic80::Decrement),
    Named(b"di", Mnemonic80::Alone(Op80::DisableInterrupts)),
    Named(b"djnz", Mnemonic80::DecrementAndJump),
    Named(b"ei", Mnemonic80::Alone(Op80::EnableInterrupts)),
    Named(b"ex", Mnemonic80::Exchange),
    Named(b"exx", Mnemonic80::Alone(Op80::ExchangeAll)),
    Named(b"halt", Mnemonic80::Alone(Op80::Halt)),
    Named(b"im", Mnemonic80::SetInterruptMode),
    Named(b"in", Mnemonic80::Input),
    Named(b"inc", Mnemonic80::Increment),
    Named(
        b"ind",
        Mnemonic80::Alone(Op80::BlockInput(Block::Decrement)),
    ),
    Named(
        b"indr",
        Mnemonic80::Alone(Op80::BlockInput(Block::DecrementRepeat)),
    ),
    Named(
        b"ini",
        Mnemonic80::Alone(Op80::BlockInput(Block::Increment)),
    ),
    Named(
        b"inir",
        Mnemonic80::Alone(Op80::BlockInput(Block::IncrementRepeat)),
    ),
    Named(b"jp", Mnemonic80::Jump),
    Named(b"jr", Mnemonic80::JumpRelative),
    Named(b"ld", Mnemonic80::Load),
    Named(b"ldd", Mnemonic80::Alone(Op80::BlockLoad(Block::Decrement))),
    Named(
        b"lddr",
        Mnemonic80::Alone(Op80::BlockLoad(Block::DecrementRepeat)),
    ),
    Named(b"ldi", Mnemonic80::Alone(Op80::BlockLoad(Block::Increment))),
    Named(
        b"ldir",
        Mnemonic80::Alone(Op80::BlockLoad(Block::IncrementRepeat)),
    ),
    Named(b"neg", Mnemonic80::Alone(Op80::Negate)),
    Named(b"nop", Mnemonic80::Alone(Op80::Nop)),
    Named(b"or", Mnemonic80::Arithmetic(Task80::Or)),
    Named(
        b"otdr",
        Mnemonic80::Alone(Op80::BlockOutput(Block::DecrementRepeat)),
    ),
    Named(
        b"otir",
        Mnemonic80::Alone(Op80::BlockOutput(Block::IncrementRepeat)),
    ),
    Named(b"out", Mnemonic80::Output),
    Named(
        b"outd",
        Mnemonic80::Alone(Op80::BlockOutput(Block::Decrement)),
    ),
    Named(
        b"outi",
        Mnemonic80::Alone(Op80::BlockOutput(Block::Increment)),
    ),
    Named(b"pop", Mnemonic80::Pop),
    Named(b"push", Mnemonic80::Push),
    Named(b"res", Mnemonic80::ResetBit),
    Named(b"ret", Mnemonic80::Return),
    Named(b"reti", Mnemonic80::Alone(Op80::ReturnFromInterrupt)),
    Named(b"retn", Mnemonic80::Alone(Op80::ReturnFromNonMaskable)),
    Named(b"rl", Mnemonic80::Change(Task80::Rl)),
    Named(b"rla", Mnemonic80::Alone(Op80::Accumulator(Task80::Rla))),
    Named(b"rlc", Mnemonic80::Change(Task80::Rlc)),
    Named(b"rlca", Mnemonic80::Alone(Op80::Accumulator(Task80::Rlca))),
    Named(b"rld", Mnemonic80::Alone(Op80::RotateDigitsLeft)),
    Named(b"rr", Mnemonic80::Change(Task80::Rr)),
    Named(b"rra", Mnemonic80::Alone(Op80::Accumulator(Task80::Rra))),
    Named(b"rrc", Mnemonic80::Change(Task80::Rrc)),
    Named(b"rrca", Mnemonic80::Alone(Op80::Accumulator(Task80::Rrca))),
    Named(b"rrd", Mnemonic80::Alone(Op80::RotateDigitsRight)),
    Named(b"rst", Mnemonic80::Restart),
    Named(b"sbc", Mnemonic80::SubtractWithCarry),
    Named(b"scf", Mnemonic80::Alone(Op80::Accumulator(Task80::Scf))),
    Named(b"set", Mnemonic80::SetBit),
    Named(b"sla", Mnemonic80::Change(Task80::Sla)),
    Named(b"sll", Mnemonic80::Change(Task80::Sll)),
    Named(b"sra", Mnemonic80::Change(Task80::Sra)),
    Named(b"srl", Mnemonic80::Change(Task80::Srl)),
    Named(b"sub", Mnemonic80::Arithmetic(Task80::Sub)),
    Named(b"xor", Mnemonic80::Arithmetic(Task80::Xor)),
];

/// The meaning of a text, else NOP.
#[tactic(auto, unfolding(crate::specs::Building::mnemonic_of))]
pub(crate) fn mnemonic_of(text: &[u8]) -> Mnemonic80
    ensures { result ≡ building.mnemonic_of text.now }
{
    mnemonic_in(&NAMES, text)
}
