use crate::{Condition, Displacement};
use md_word::{Mode, Size, Task};

/// An instruction of the MC68000 with its operands: one variant for each row of the table of
/// instructions.
///
/// A register number is below 8 but for EXG. Where a variant has two numbers of registers, the one
/// of bits 11 to 9 comes first. Source: M68000 Programmer's Reference Manual, sections 4 and 8.
#[derive(Clone, Copy)]
pub enum Op {
    /// ORI, ANDI, SUBI, ADDI, EORI: the number and its target.
    Immediate(Task, Size, u32, Mode),
    /// CMPI: the number and what it is compared with.
    CompareImmediate(Size, u32, Mode),
    /// ORI, ANDI, EORI to CCR.
    ImmediateToCcr(Task, u8),
    /// ORI, ANDI, EORI to SR.
    ImmediateToSr(Task, u16),
    /// BTST, BCHG, BCLR, BSET of the bit that a data register names.
    BitByRegister(Task, u8, Mode),
    /// BTST, BCHG, BCLR, BSET of the bit of this number.
    BitByNumber(Task, u8, Mode),
    /// MOVEP d16(Ay),Dx: x, y and the displacement.
    MovepToRegister(Size, u8, u8, u16),
    /// MOVEP Dx,d16(Ay): x, y and the displacement.
    MovepToMemory(Size, u8, u8, u16),
    /// MOVE: the source and the target.
    Move(Size, Mode, Mode),
    /// MOVEA to an address register.
    Movea(Size, u8, Mode),
    /// NEGX, CLR, NEG, NOT.
    Unary(Task, Size, Mode),
    MoveFromSr(Mode),
    MoveToCcr(Mode),
    MoveToSr(Mode),
    Nbcd(Mode),
    Swap(u8),
    /// EXT to this size.
    Ext(Size, u8),
    Pea(Mode),
    /// MOVEM of the registers whose bits are set: from bit 0 D0 to D7 and A0 to A7, or the other
    /// way round where the mode is −(An).
    MovemToMemory(Size, u16, Mode),
    /// MOVEM of the registers whose bits are set: from bit 0 D0 to D7 and A0 to A7.
    MovemToRegisters(Size, u16, Mode),
    Tst(Size, Mode),
    Tas(Mode),
    /// TRAP, with the number 0 to 15.
    Trap(u8),
    /// LINK of an address register, with the displacement.
    Link(u8, u16),
    Unlk(u8),
    /// MOVE An,USP.
    MoveToUsp(u8),
    /// MOVE USP,An.
    MoveFromUsp(u8),
    Reset,
    Nop,
    /// STOP, with the new status register.
    Stop(u16),
    Rte,
    Rts,
    Trapv,
    Rtr,
    Jsr(Mode),
    Jmp(Mode),
    /// LEA to an address register.
    Lea(u8, Mode),
    /// CHK of a data register, with its bound.
    Chk(u8, Mode),
    /// ADDQ, SUBQ: the number, 1 to 8, and its target.
    Quick(Task, Size, u8, Mode),
    Scc(Condition, Mode),
    /// DBcc of a data register, with the displacement.
    Dbcc(Condition, u8, u16),
    Bra(Displacement),
    Bsr(Displacement),
    /// Bcc, of the conditions from HI on.
    Bcc(Condition, Displacement),
    /// MOVEQ of the byte, which is extended, to a data register.
    Moveq(u8, u8),
    /// DIVU of a data register by the source.
    Divu(u8, Mode),
    /// DIVS of a data register by the source.
    Divs(u8, Mode),
    /// ABCD, SBCD: the source and the target, both Dn or both −(An).
    Decimal(Task, Mode, Mode),
    /// ADDX, SUBX: the source and the target, both Dn or both −(An).
    Extended(Task, Size, Mode, Mode),
    /// OR, SUB, AND, ADD to a data register.
    ToRegister(Task, Size, u8, Mode),
    /// OR, SUB, AND, ADD of a data register to memory.
    ToMemory(Task, Size, u8, Mode),
    /// SUBA, ADDA to an address register.
    ToAddress(Task, Size, u8, Mode),
    /// CMP of a data register with the operand.
    Cmp(Size, u8, Mode),
    /// CMPA of an address register with the operand.
    Cmpa(Size, u8, Mode),
    /// EOR of a data register to the target.
    Eor(Size, u8, Mode),
    /// CMPM (Ay)+,(Ax)+: x and y.
    Cmpm(Size, u8, u8),
    /// MULU of a data register by the source.
    Mulu(u8, Mode),
    /// MULS of a data register by the source.
    Muls(u8, Mode),
    /// EXG of two registers: 0 to 7 the data registers, 8 to 15 the address registers.
    Exg(u8, u8),
    /// ASx, LSx, ROXx, ROx of a data register, the last, by the number 1 to 8.
    ShiftByNumber(Task, Size, u8, u8),
    /// ASx, LSx, ROXx, ROx of a data register, the last, by a data register.
    ShiftByRegister(Task, Size, u8, u8),
    /// ASx, LSx, ROXx, ROx of a word in memory by 1.
    ShiftMemory(Task, Mode),
    /// ILLEGAL, and each opcode that is no instruction.
    Illegal(u16),
    /// An opcode whose first digit is A.
    LineA(u16),
    /// An opcode whose first digit is F.
    LineF(u16),
}
