ghost use Rattle.std.specs.Prelude.{◌≡◌, ◌≤◌};
ghost use Rattle.z80_decode.specs.Lines.{coded};
ghost use Rattle.z80_decode.specs.Nested as nested;

use crate::{Index, Op80};

/// A decoded instruction.
#[derive(Clone, Copy)]
pub struct Decoded80 {
    pub op: Op80,
    /// The bytes of the instruction with its prefixes and operands, 1 to 4.
    pub length: u8,
}

impl Decoded80 {
    /// An instruction of one opcode, with the prefix of the index register, and so many bytes of
    /// operands.
    pub(crate) fn coded(index: Index, operands: u8, op: Op80) -> Self
        requires { operands ≤ 2 }
        ensures { result ≡ coded index operands op }
    {
        let length = match index {
            Index::Hl => 1 + operands,
            Index::Ix | Index::Iy => 2 + operands,
        };
        Decoded80 { op, length }
    }

    /// An instruction without a prefix, with so many bytes of operands.
    pub(crate) fn plain(operands: u8, op: Op80) -> Self
        requires { operands ≤ 2 }
        ensures { result ≡ nested.plain operands op }
    {
        Decoded80::coded(Index::Hl, operands, op)
    }

    /// An instruction of so many bytes.
    pub(crate) fn of_bytes(count: u8, op: Op80) -> Self
        ensures { result ≡ nested.of_bytes count op }
    {
        Decoded80 { op, length: count }
    }
}
