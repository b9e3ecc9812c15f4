ghost use Rattle.std.specs.Prelude.{◌≡◌};

use std::sync::ledger::Blank;

/// A ledger for each chip number, in which no move is counted, cut into one part.
#[derive(Drop)]
pub struct Blanks {
    pub l0: Blank,
    pub l1: Blank,
    pub l2: Blank,
    pub l3: Blank,
    pub l4: Blank,
}

impl Blanks {
    /// Five new ledgers.
    pub fn new() -> Self
        ensures { (result.l0.parts ≡ 1) × (result.l1.parts ≡ 1) × (result.l2.parts ≡ 1) × (result.l3.parts ≡ 1) × (result.l4.parts ≡ 1) }
    {
        Blanks {
            l0: Blank::new(1),
            l1: Blank::new(1),
            l2: Blank::new(1),
            l3: Blank::new(1),
            l4: Blank::new(1),
        }
    }
}
