//! Operands in registers, in the instruction, in the cartridge or in work RAM.
ghost use Rattle.std.specs.Prelude.{◌≡◌, ◌<◌, IfSome, IsFalse};
ghost use Rattle.md_word.specs.Modes.{IsMode};
ghost use Rattle.md_word.specs.Width.{modulus_of};
ghost use Rattle.m68k_ea.specs.Places.{is_misaligned};
ghost use Rattle.m68k_access.specs.Actions as actions;
ghost use Rattle.m68k_access.specs.Clauses.{memory_of};
ghost use Rattle.m68k_access.specs.Operands as operands;
ghost use Rattle.m68k_exec.specs.Sample.Private.{Finds, Reads};

use crate::Context;
use m68k_access::memory::{bus_address, byte_at, word_at};
use m68k_access::operands::{locate, step};
use m68k_ea::Place;
use md_word::{Mode, Regs, Size, is_shared};

/// What is at an address in the cartridge or in work RAM; None where a part of it is shared.
#[inline(always)]
pub fn private(size: Size, address: u32, context: &Context) -> Option<u32>
    requires { IsFalse (is_misaligned size address) }
    ensures value { IfSome result (λ value. Reads (actions.read size address) value (memory_of context.now)) }
    ensures below { IfSome result (λ value. value < modulus_of size) }
{
    let at = bus_address(address);
    if is_shared(at) {
        return None;
    }
    match size {
        Size::Byte => Some(u32::from(byte_at(at, context.rom, context.ram))),
        Size::Word => Some(u32::from(word_at(at, context.rom, context.ram))),
        Size::Long => {
            let second = bus_address(address.wrapping_add(2));
            if is_shared(second) {
                return None;
            }
            let high = word_at(at, context.rom, context.ram);
            let low = word_at(second, context.rom, context.ram);
            Some(u32::from(high) * 0x1_0000 + u32::from(low))
        }
    }
}

/// An operand in the cartridge or in work RAM; None of another. (An)+ and −(An) move their register where it is
/// found.
#[inline(never)]
fn operand_in_memory(
    mode: Mode,
    size: Size,
    pc: u32,
    context: &Context,
    regs: &mut Regs,
) -> Option<u32>
    requires { IsMode mode }
    ensures value { Finds result (operands.load mode size pc regs.old) regs.old regs.new (memory_of context.now) }
    ensures below { IfSome result (λ value. value < modulus_of size) }
{
    match locate(mode, size, pc, regs) {
        Place::Memory(address) => match private(size, address, context) {
            Some(value) => {
                step(mode, size, regs);
                Some(value)
            }
            None => None,
        },
        _ => None,
    }
}

/// An operand in a register, in the instruction, in the cartridge or in work RAM; None of another. (An)+ and
/// −(An) move their register where it is found.
#[inline(always)]
pub fn operand(mode: Mode, size: Size, pc: u32, context: &Context, regs: &mut Regs) -> Option<u32>
    requires { IsMode mode }
    ensures value { Finds result (operands.load mode size pc regs.old) regs.old regs.new (memory_of context.now) }
    ensures below { IfSome result (λ value. value < modulus_of size) }
{
    match mode {
        Mode::Data(number) => Some(size.low(regs.register(number))),
        Mode::Address(number) => Some(size.low(regs.register(number + 8))),
        Mode::Immediate(value) => Some(size.low(value)),
        _ => operand_in_memory(mode, size, pc, context, regs),
    }
}
