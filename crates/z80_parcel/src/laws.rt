//! Laws of the parcel, as calls that do nothing but ensure them.

ghost use Rattle.z80_parcel.specs.Laws.{NineWritesSetTheBank, WritesFit};

/// Nine writes to the bank register set it whole, its lowest bit, A15, first.
#[tactic(auto, using(crate::proofs::Writes::nine))]
pub fn nine_writes_set_the_bank()
    ensures { NineWritesSetTheBank }
{}

/// Writes leave a bank register of nine bits, and as much RAM.
#[tactic(auto, using(crate::proofs::Writes::fit))]
pub fn writes_fit()
    ensures { WritesFit }
{}
