use z80_decode::{Op80, Task80};

/// The mnemonic of an instruction. Zilog UM0080, "Z80 Instruction Description".
#[derive(Clone, Copy)]
pub(crate) enum Mnemonic80 {
    /// An instruction without operands.
    Alone(Op80),
    Load,
    Push,
    Pop,
    Exchange,
    Add,
    AddWithCarry,
    SubtractWithCarry,
    /// SUB, AND, XOR, OR, CP
    Arithmetic(Task80),
    Increment,
    Decrement,
    SetInterruptMode,
    /// RLC, RRC, RL, RR, SLA, SRA, SLL, SRL
    Change(Task80),
    ResetBit,
    SetBit,
    TestBit,
    Jump,
    JumpRelative,
    DecrementAndJump,
    Call,
    Return,
    Restart,
    Input,
    Output,
}
