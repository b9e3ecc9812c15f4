ghost use Rattle.std.specs.Prelude.{◌≡◌};
ghost use Rattle.asm_z80.specs.Encoding80.{encoded};

use crate::opcode::opcode_of;
use crate::operand_bytes::{Bytes, put_operands, put_prefixes};
use z80_decode::Op80;

/// The bytes of an instruction that some bytes decode to: one to four. Zilog UM0080, "Z80 Instruction Description".
///
/// After DD CB and FD CB the code of (HL) follows, and 0 for SLL, which the manual leaves out.
#[tactic(auto, unfolding(crate::specs::Encoding80::encoded))]
pub fn encode(op: &Op80) -> Bytes
    ensures { result.items ≡ encoded op.now }
{
    let mut bytes = Bytes::new();
    put_prefixes(&mut bytes, *op);
    bytes.push(opcode_of(*op));
    put_operands(&mut bytes, *op);
    bytes
}
