ghost use Rattle.z80_alu.specs.Laws.{
  AddsDigits,
  AddsNumbers,
  RotatesBack,
  SubtractsDigits,
  SubtractsNumbers,
};

/// DAA after ADD and ADC of decimal digits gives their decimal sum.
pub fn decimal_sums()
    ensures { AddsDigits }
{}

/// DAA after SUB and SBC of decimal digits gives their decimal difference.
pub fn decimal_differences()
    ensures { SubtractsDigits }
{}

/// ADD and ADC add whole numbers and numbers in two's complement.
pub fn sums()
    ensures { AddsNumbers }
{}

/// SUB and SBC subtract whole numbers and numbers in two's complement.
pub fn differences()
    ensures { SubtractsNumbers }
{}

/// Eight rotates give a byte back.
pub fn rotations()
    ensures { RotatesBack }
{}
