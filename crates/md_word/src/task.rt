/// An operation of the 68000 on a source and a target: what the decoder names and the arithmetic
/// computes.
///
/// Source: M68000 Programmer's Reference Manual, section 4.
#[derive(Clone, Copy)]
pub enum Task {
    Abcd,
    Add,
    Addx,
    And,
    Asl,
    Asr,
    Bchg,
    Bclr,
    Bset,
    Btst,
    Clr,
    Cmp,
    Eor,
    Ext,
    Lsl,
    Lsr,
    /// The source as it is, with its flags; also TST.
    Move,
    Muls,
    Mulu,
    Nbcd,
    Neg,
    Negx,
    Not,
    Or,
    Rol,
    Ror,
    Roxl,
    Roxr,
    Sbcd,
    Sub,
    Subx,
    Swap,
    /// Flags of the operand alone: this board's TAS writes nothing to memory.
    Tas,
}
