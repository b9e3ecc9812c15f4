use crate::Bit;

/// An operation of the Z80 on the accumulator and an operand: what the decoder names and the
/// arithmetic computes.
///
/// Source: Zilog UM0080, "Z80 Instruction Description".
#[derive(Clone, Copy)]
pub enum Task80 {
    Add,
    Adc,
    Sub,
    Sbc,
    And,
    Xor,
    Or,
    Cp,
    Inc,
    Dec,
    Rlc,
    Rrc,
    Rl,
    Rr,
    Sla,
    Sra,
    /// The shift to the left that sets bit 0, which the manual leaves out.
    Sll,
    Srl,
    /// BIT
    Test(Bit),
    Res(Bit),
    Set(Bit),
    Rlca,
    Rrca,
    Rla,
    Rra,
    Daa,
    Cpl,
    Neg,
    Scf,
    Ccf,
    /// The accumulator's part of RLD.
    Rld,
    /// The accumulator's part of RRD.
    Rrd,
    /// The operand as it is, with the flags of IN r,(C).
    In,
}
