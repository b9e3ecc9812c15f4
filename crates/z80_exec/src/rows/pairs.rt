ghost use Rattle.std.specs.Prelude.{◌≡◌};
ghost use Rattle.z80_exec.specs.Rows.Pairs as pairs;

use crate::Regs80;
use crate::regs80::pair_at;
use z80_decode::{Index, Pair};

/// ADD HL,ss.
#[tactic(auto, unfolding(crate::specs::Rows::Pairs::add_pair))]
pub fn add_pair(index: Index, pair: Pair, regs: &mut Regs80)
    ensures { regs.new ≡ pairs.add_pair index pair regs.old }
{
    let target = pair_at(index);
    let out = z80_alu::add_pair(regs.pair(target), regs.pair(pair), regs.f());
    regs.set_pair(target, out.value);
    regs.set_f(out.f);
}

/// ADC HL,ss.
#[tactic(auto, unfolding(crate::specs::Rows::Pairs::add_pair_with_carry))]
pub fn add_pair_with_carry(pair: Pair, regs: &mut Regs80)
    ensures { regs.new ≡ pairs.add_pair_with_carry pair regs.old }
{
    let out = z80_alu::add_pair_with_carry(regs.hl, regs.pair(pair), regs.f());
    regs.set_pair(Pair::Hl, out.value);
    regs.set_f(out.f);
}

/// SBC HL,ss.
#[tactic(auto, unfolding(crate::specs::Rows::Pairs::subtract_pair_with_carry))]
pub fn subtract_pair_with_carry(pair: Pair, regs: &mut Regs80)
    ensures { regs.new ≡ pairs.subtract_pair_with_carry pair regs.old }
{
    let out = z80_alu::subtract_pair_with_carry(regs.hl, regs.pair(pair), regs.f());
    regs.set_pair(Pair::Hl, out.value);
    regs.set_f(out.f);
}

/// INC of 16 bits, which sets no flags.
#[tactic(auto, unfolding(crate::specs::Rows::Pairs::increment_pair))]
pub fn increment_pair(pair: Pair, regs: &mut Regs80)
    ensures { regs.new ≡ pairs.increment_pair pair regs.old }
{
    let value = regs.pair(pair).wrapping_add(1);
    regs.set_pair(pair, value);
}

/// DEC of 16 bits, which sets no flags.
#[tactic(auto, unfolding(crate::specs::Rows::Pairs::decrement_pair))]
pub fn decrement_pair(pair: Pair, regs: &mut Regs80)
    ensures { regs.new ≡ pairs.decrement_pair pair regs.old }
{
    let value = regs.pair(pair).wrapping_sub(1);
    regs.set_pair(pair, value);
}
