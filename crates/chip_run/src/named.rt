ghost use Rattle.std.specs.Prelude.{ℕ, List, []};

use std::marker::{Brand, PhantomData};
use std::sync::ledger::Ledger;

/// The ledgers of a run, in each of which the moves of the chip of one number are counted.
pub trait Ledgers {
    type L0: Ledger;

    type L1: Ledger;

    type L2: Ledger;

    type L3: Ledger;

    type L4: Ledger;
}

/// Names a run: the core that it began with, by its list of numbers, the cycle of the master clock
/// that it goes to, how many entries the core's journal has room for, and its ledgers.
pub trait Named: Ledgers {
    ghost base: { List ℕ };

    ghost end: { ℕ };

    ghost room: { ℕ };
}

/// What names a run but for its ledgers, as [`Named`] has it. Whoever begins a run chooses it.
pub trait RunName {
    ghost base: { List ℕ };

    ghost end: { ℕ };

    ghost room: { ℕ };
}

impl RunName for Brand {
    ghost base = { [] };

    ghost end = { 0 };

    ghost room = { 0 };
}

/// The run of this name with these ledgers.
pub struct Run<N, L0, L1, L2, L3, L4> {
    names: PhantomData<(N, L0, L1, L2, L3, L4)>,
}

impl<N, L0: Ledger, L1: Ledger, L2: Ledger, L3: Ledger, L4: Ledger> Ledgers
    for Run<N, L0, L1, L2, L3, L4> {
    type L0 = L0;

    type L1 = L1;

    type L2 = L2;

    type L3 = L3;

    type L4 = L4;
}

impl<N: RunName, L0: Ledger, L1: Ledger, L2: Ledger, L3: Ledger, L4: Ledger> Named
    for Run<N, L0, L1, L2, L3, L4> {
    ghost base = { N.base };

    ghost end = { N.end };

    ghost room = { N.room };
}
