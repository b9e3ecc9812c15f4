ghost use Rattle.std.specs.Prelude.{◌≡◌};
ghost use Rattle.z80_exec.specs.Rows.Control as control;

use crate::Regs80;
use z80_alu::compute;
use z80_decode::{InterruptMode, Task80};

/// RLCA and its kin, DAA, CPL, NEG, SCF and CCF.
#[tactic(auto, unfolding(crate::specs::Rows::Control::accumulator))]
pub fn accumulator(task: Task80, regs: &mut Regs80)
    ensures { regs.new ≡ control.accumulator task regs.old }
{
    let out = compute(task, regs.a(), 0, regs.f());
    regs.set_af(out.value, out.f);
}

/// DI.
#[tactic(auto, unfolding(crate::specs::Rows::Control::disabled))]
pub fn disable(regs: &mut Regs80)
    ensures { regs.new ≡ control.disabled regs.old }
{
    regs.iff1 = false;
    regs.iff2 = false;
}

/// EI.
#[tactic(auto, unfolding(crate::specs::Rows::Control::enabled))]
pub fn enable(regs: &mut Regs80)
    ensures { regs.new ≡ control.enabled regs.old }
{
    regs.iff1 = true;
    regs.iff2 = true;
}

/// IM.
#[tactic(auto, unfolding(crate::specs::Rows::Control::with_mode))]
pub fn set_mode(mode: InterruptMode, regs: &mut Regs80)
    ensures { regs.new ≡ control.with_mode mode regs.old }
{
    regs.mode = mode;
}
