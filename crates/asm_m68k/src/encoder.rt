ghost use Rattle.std.specs.Prelude.{◌≡◌};
ghost use Rattle.asm_m68k.specs.Coded.{IsCoded};
ghost use Rattle.asm_m68k.specs.Encoding.{encoded};

use crate::extension::{Words, put_extension};
use crate::first::first_word;
use m68k_decode::Op;

/// The words of an instruction that some words decode to: one to five. M68000 Programmer's Reference Manual, section 8,
/// "Instruction Format Summary".
///
/// Bits that the processor does not look at are 0, so that these are the least words of the instruction.
pub fn encode(op: &Op) -> Words
    requires { IsCoded op.now }
    ensures { result.items ≡ encoded op.now }
{
    let mut words = Words::new();
    words.push(first_word(*op));
    put_extension(&mut words, *op);
    words
}
