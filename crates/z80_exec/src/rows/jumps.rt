ghost use Rattle.std.specs.Prelude.{◌≡◌};
ghost use Rattle.z80_exec.specs.Access.Outcomes.{outcome_of};
ghost use Rattle.z80_exec.specs.Rows.Jumps as jumps;

use crate::Regs80;
use crate::access::conditions::holds;
use crate::regs80::{displaced, high, pair_at, with_high};
use z80_decode::{Condition, Index};

/// JP nn.
#[tactic(auto, unfolding(crate::specs::Rows::Jumps::jump))]
pub fn jump(target: u16, regs: &mut Regs80)
    ensures { regs.new ≡ jumps.jump target regs.old }
{
    regs.pc = target;
}

/// JP cc,nn.
#[tactic(auto, unfolding(crate::specs::Rows::Jumps::jump_if))]
pub fn jump_if(condition: Condition, target: u16, regs: &mut Regs80) -> bool
    ensures { outcome_of result regs.new ≡ jumps.jump_if condition target regs.old }
{
    if holds(condition, regs.f()) {
        jump(target, regs);
        true
    } else {
        false
    }
}

/// JR e.
#[tactic(auto, unfolding(crate::specs::Rows::Jumps::jump_relative))]
pub fn jump_relative(distance: u8, regs: &mut Regs80)
    ensures { regs.new ≡ jumps.jump_relative distance regs.old }
{
    regs.pc = displaced(regs.pc, distance);
}

/// JR cc,e.
#[tactic(auto, unfolding(crate::specs::Rows::Jumps::jump_relative_if))]
pub fn jump_relative_if(condition: Condition, distance: u8, regs: &mut Regs80) -> bool
    ensures { outcome_of result regs.new ≡ jumps.jump_relative_if condition distance regs.old }
{
    if holds(condition, regs.f()) {
        jump_relative(distance, regs);
        true
    } else {
        false
    }
}

/// JP (HL).
#[tactic(auto, unfolding(crate::specs::Rows::Jumps::jump_index))]
pub fn jump_index(index: Index, regs: &mut Regs80)
    ensures { regs.new ≡ jumps.jump_index index regs.old }
{
    regs.pc = regs.pair(pair_at(index));
}

/// DJNZ e.
#[tactic(auto, unfolding(crate::specs::Rows::Jumps::decrement_and_jump))]
pub fn decrement_and_jump(distance: u8, regs: &mut Regs80) -> bool
    ensures { outcome_of result regs.new ≡ jumps.decrement_and_jump distance regs.old }
{
    let counter = high(regs.bc).wrapping_sub(1);
    regs.bc = with_high(regs.bc, counter);
    if counter == 0 {
        false
    } else {
        jump_relative(distance, regs);
        true
    }
}
