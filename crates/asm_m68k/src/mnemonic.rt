use m68k_decode::Condition;
use md_word::Task;

/// The mnemonic of an instruction, without its size. M68000 Programmer's Reference Manual, section 4, "Integer
/// Instructions".
#[derive(Clone, Copy)]
pub(crate) enum Mnemonic {
    /// No instruction.
    Unknown,
    /// ORI, ANDI, SUBI, ADDI, EORI
    Immediate(Task),
    CompareImmediate,
    /// BTST, BCHG, BCLR, BSET
    Bit(Task),
    /// NEGX, CLR, NEG, NOT
    Unary(Task),
    /// ADDQ, SUBQ
    Quick(Task),
    Scc(Condition),
    Dbcc(Condition),
    Bcc(Condition),
    /// ABCD, SBCD
    Decimal(Task),
    /// ADDX, SUBX
    Extended(Task),
    /// OR, SUB, AND, ADD
    Sum(Task),
    /// SUBA, ADDA
    ToAddress(Task),
    /// ASx, LSx, ROXx, ROx
    Shift(Task),
    Movep,
    Move,
    Movea,
    Movem,
    Nbcd,
    Swap,
    Ext,
    Pea,
    Tst,
    Tas,
    Trap,
    Link,
    Unlk,
    Reset,
    Nop,
    Stop,
    Rte,
    Rts,
    Trapv,
    Rtr,
    Jsr,
    Jmp,
    Lea,
    Chk,
    Bra,
    Bsr,
    Moveq,
    Divu,
    Divs,
    Cmp,
    Cmpa,
    Eor,
    Cmpm,
    Mulu,
    Muls,
    Exg,
}
