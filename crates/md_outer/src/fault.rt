ghost use Rattle.std.specs.Prelude.{◌≡◌, ◌+◌, ◌-◌, ◌^◌, ◌≤◌, min};
ghost use Rattle.md_outer.specs.Outside.{Rose};

/// Counts one more fault. A count stops at its greatest value.
pub(crate) fn count_fault(faults: &mut u64)
    ensures counted { faults.new ≡ min (faults.old + 1) (2 ^ 64 - 1) }
    ensures rose { Rose faults.old faults.new }
    ensures later { faults.old ≤ faults.new }
{
    *faults = faults.saturating_add(1);
}
