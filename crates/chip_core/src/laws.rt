//! Laws of the least machine, as calls: `run_least` does what it says, and the others do nothing
//! and stand for what they ensure.

ghost use Rattle.std.specs.Prelude.{◌≡◌, ℕ, ◌+◌, ◌-◌, ◌*◌, ◌<◌, ◌≤◌, false, [], ◌++◌, List, length};
ghost use Rattle.md_word.specs.Clock.{cycle_limit};
ghost use Rattle.md_word.specs.declared.event.Entry.{Entry};
ghost use Rattle.md_word.specs.Keys.{key_lt};
ghost use Rattle.chip_core.specs.declared.event.Event.{Event};
ghost use Rattle.chip_core.specs.Cores.{CoreValue, IsCore, machine_of, seen};
ghost use Rattle.chip_core.specs.Events.{HasRoom, IsEnabled, IsTidy, Leads, Seen, Stands, after, counted};
ghost use Rattle.chip_core.specs.Limits.{all_moves_left, events_within, moves_left, moves_within};
ghost use Rattle.chip_core.specs.Machines.{AllBelow, AreSame, IsQuiet, IsRunTo, IsValid, Machine, OnPath, journal, key_of, made, mover, run};
ghost use Rattle.chip_core.specs.Standing.{StandsFor};

pub use crate::scheduler::run_least::run_least;
use crate::{ChipSet, Core};

/// A free place for each move that can lie below `t` is a free place for each access below it.
pub fn room<C: ChipSet>(core: &Core<C>, t: u64)
    requires time { t ≤ cycle_limit }
    requires room { length core.now.journal + all_moves_left C.rules t (machine_of C.rules core.now) ≤ core.now.room }
    ensures { HasRoom C.rules t (seen C.rules core.now) core.now.room }
{
    core.known();
}

/// A run that continues from where another ended is one run, with the one journal followed by the
/// other.
pub fn joined<C: ChipSet>()
    ensures { (m w z : Machine C.Chip C.Shared) (s t : ℕ) (first second : List Entry) → s ≤ t
        → IsRunTo C.rules m s w first → IsRunTo C.rules w t z second
        → IsRunTo C.rules m t z (first ++ second) }
{}

/// Two runs from one machine to one cycle end at the same machine, with the same journal.
pub fn one_run<C: ChipSet>()
    ensures { (m w z : Machine C.Chip C.Shared) (t : ℕ) (first second : List Entry)
        → IsRunTo C.rules m t w first → IsRunTo C.rules m t z second
        → AreSame C.rules w z × (first ≡ second) }
{}

/// What every stage of a run below `t` is: valid, as the machine of each core is, and moved by the
/// chip of least key. A chip's count of moves determines the chip.
pub fn stages<C: ChipSet>()
    ensures core { (v : CoreValue C.Chip C.Shared) → IsCore C.rules C.chip_ok C.shared_ok v
        → IsValid C.rules C.chip_ok C.shared_ok (machine_of C.rules v) }
    ensures valid { (m : Machine C.Chip C.Shared) (t n : ℕ) → t ≤ cycle_limit → IsValid C.rules C.chip_ok C.shared_ok m
        → AllBelow C.rules m t n → IsValid C.rules C.chip_ok C.shared_ok (run C.rules m n) }
    ensures mover { (m : Machine C.Chip C.Shared) → mover C.rules m < C.rules.count }
    ensures least { (m : Machine C.Chip C.Shared) (i : ℕ) → IsValid C.rules C.chip_ok C.shared_ok m → i < C.rules.count
        → key_lt (key_of C.rules m i) (key_of C.rules m (mover C.rules m)) ≡ false }
    ensures once { (m : Machine C.Chip C.Shared) (t i n : ℕ) (c d : C.Chip)
        → OnPath C.rules m t i n c → OnPath C.rules m t i n d → c ≡ d }
{}

/// How many moves and entries can lie below `t`, where a chip's moves take a gap each.
pub fn limits<C: ChipSet>()
    ensures spread { (m : Machine C.Chip C.Shared) (t n i : ℕ) → t ≤ cycle_limit → IsValid C.rules C.chip_ok C.shared_ok m
        → AllBelow C.rules m t n → i < C.rules.count
        → (key_of C.rules m i).cycle + made C.rules m i n * C.rules.gap i ≤ (key_of C.rules (run C.rules m n) i).cycle }
    ensures made { (m : Machine C.Chip C.Shared) (t n i : ℕ) → t ≤ cycle_limit → IsValid C.rules C.chip_ok C.shared_ok m
        → AllBelow C.rules m t n → i < C.rules.count → made C.rules m i n ≤ moves_left C.rules t m i }
    ensures entered { (m : Machine C.Chip C.Shared) (t n : ℕ) → t ≤ cycle_limit → IsValid C.rules C.chip_ok C.shared_ok m
        → AllBelow C.rules m t n → length (journal C.rules m n) ≤ all_moves_left C.rules t m }
    ensures within { (m : Machine C.Chip C.Shared) (from t : ℕ) → t ≤ cycle_limit → IsQuiet C.rules m from
        → all_moves_left C.rules t m ≤ moves_within C.rules (t - from) }
{}

/// What each enabled event keeps, with the counts of moves: for a core whose chips are held apart
/// from its shared state. And how long a list of enabled events can be.
pub fn events<C: ChipSet>()
    ensures core { (v : CoreValue C.Chip C.Shared) → IsCore C.rules C.chip_ok C.shared_ok v
        → IsTidy C.rules C.chip_ok C.shared_ok (seen C.rules v) }
    ensures first { (base : Seen C.Chip C.Shared) (t : ℕ) → t ≤ cycle_limit → IsValid C.rules C.chip_ok C.shared_ok base.machine
        → StandsFor C.rules base.machine base.bound t base.machine base.bound [] (λ i. 0) }
    ensures tidy { (s : Seen C.Chip C.Shared) (e : Event) → IsTidy C.rules C.chip_ok C.shared_ok s
        → IsEnabled C.rules s cycle_limit e → IsTidy C.rules C.chip_ok C.shared_ok (after C.rules s e) }
    ensures stands { (base s : Seen C.Chip C.Shared) (t : ℕ) (count : ℕ → ℕ) (e : Event) → t ≤ cycle_limit
        → IsValid C.rules C.chip_ok C.shared_ok base.machine → IsTidy C.rules C.chip_ok C.shared_ok s
        → StandsFor C.rules base.machine base.bound t s.machine s.bound s.journal count
        → IsEnabled C.rules s t e
        → let z = after C.rules s e in
        StandsFor C.rules base.machine base.bound t z.machine z.bound z.journal (counted count e) }
    ensures ended { (base s : Seen C.Chip C.Shared) (t : ℕ) → t ≤ cycle_limit
        → IsValid C.rules C.chip_ok C.shared_ok base.machine → IsTidy C.rules C.chip_ok C.shared_ok s
        → Stands C.rules base t s → IsQuiet C.rules s.machine t
        → IsRunTo C.rules base.machine t s.machine s.journal }
    ensures entered { (base s : Seen C.Chip C.Shared) (t : ℕ) → t ≤ cycle_limit → IsValid C.rules C.chip_ok C.shared_ok base.machine
        → Stands C.rules base t s → length s.journal ≤ all_moves_left C.rules t base.machine }
    ensures later { (base s : Seen C.Chip C.Shared) (t from : ℕ) → t ≤ cycle_limit
        → IsValid C.rules C.chip_ok C.shared_ok base.machine → Stands C.rules base t s
        → IsQuiet C.rules base.machine from → IsQuiet C.rules s.machine from }
    ensures few { (s z : Seen C.Chip C.Shared) (t from : ℕ) (list : List Event) → t ≤ cycle_limit
        → IsTidy C.rules C.chip_ok C.shared_ok s → IsQuiet C.rules s.machine from
        → Leads C.rules t s list z → length list ≤ events_within C.rules (t - from) }
{}
