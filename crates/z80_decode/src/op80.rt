use crate::{Bit, Block, Condition, Index, InterruptMode, Pair, Place8, Special, Task80};

/// An instruction of the Z80 with its operands.
///
/// A displacement and a relative distance are bytes in two's complement. Source: Zilog UM0080,
/// "Z80 Instruction Description".
#[derive(Clone, Copy)]
pub enum Op80 {
    /// LD of 8 bits: the target and the source.
    Load(Place8, Place8),
    /// LD A,I and LD A,R.
    LoadFromSpecial(Special),
    /// LD I,A and LD R,A.
    LoadToSpecial(Special),
    /// LD dd,nn
    LoadPair(Pair, u16),
    /// LD HL,(nn)
    LoadIndex(Index, u16),
    /// LD dd,(nn), which has the prefix ED.
    LoadPairExtended(Pair, u16),
    /// LD (nn),HL
    StoreIndex(u16, Index),
    /// LD (nn),dd, which has the prefix ED.
    StorePairExtended(u16, Pair),
    /// LD SP,HL
    LoadStackPointer(Index),
    Push(Pair),
    Pop(Pair),
    /// EX DE,HL
    ExchangeDeHl,
    /// EX AF,AF'
    ExchangeAf,
    /// EXX
    ExchangeAll,
    /// EX (SP),HL
    ExchangeStack(Index),
    /// LDI, LDD, LDIR, LDDR.
    BlockLoad(Block),
    /// CPI, CPD, CPIR, CPDR.
    BlockCompare(Block),
    /// ADD, ADC, SUB, SBC, AND, XOR, OR, CP of A and the operand.
    Arithmetic(Task80, Place8),
    /// INC, DEC of 8 bits.
    Step(Task80, Place8),
    /// RLCA, RRCA, RLA, RRA, DAA, CPL, SCF, CCF.
    Accumulator(Task80),
    /// NEG
    Negate,
    Nop,
    Halt,
    /// DI
    DisableInterrupts,
    /// EI
    EnableInterrupts,
    /// IM
    SetInterruptMode(InterruptMode),
    /// ADD HL,ss
    AddPair(Index, Pair),
    /// ADC HL,ss
    AddPairWithCarry(Pair),
    /// SBC HL,ss
    SubtractPairWithCarry(Pair),
    /// INC of 16 bits.
    IncrementPair(Pair),
    /// DEC of 16 bits.
    DecrementPair(Pair),
    /// RLC, RRC, RL, RR, SLA, SRA, SLL, SRL, RES, SET, which have the prefix CB.
    Change(Task80, Place8),
    /// BIT
    TestBit(Bit, Place8),
    /// RLD
    RotateDigitsLeft,
    /// RRD
    RotateDigitsRight,
    /// JP nn
    Jump(u16),
    /// JP cc,nn
    JumpIf(Condition, u16),
    /// JR e
    JumpRelative(u8),
    /// JR cc,e
    JumpRelativeIf(Condition, u8),
    /// JP (HL)
    JumpIndex(Index),
    /// DJNZ e
    DecrementAndJump(u8),
    /// CALL nn
    Call(u16),
    /// CALL cc,nn
    CallIf(Condition, u16),
    /// RET
    Return,
    /// RET cc
    ReturnIf(Condition),
    /// RETI
    ReturnFromInterrupt,
    /// RETN
    ReturnFromNonMaskable,
    /// RST: the address, a multiple of 8 below 40h.
    Restart(u8),
    /// IN A,(n)
    InputAtNumber(u8),
    /// IN r,(C)
    Input(Place8),
    /// INI, IND, INIR, INDR.
    BlockInput(Block),
    /// OUT (n),A
    OutputAtNumber(u8),
    /// OUT (C),r
    Output(Place8),
    /// OUTI, OUTD, OTIR, OTDR.
    BlockOutput(Block),
    /// A prefix DD or FD before an opcode that does not name HL.
    LonePrefix(Index),
    /// The prefix ED with an opcode that is no instruction.
    Undefined(u8),
}
