ghost use Rattle.std.specs.Prelude.{◌≡◌, ◌≤◌};
ghost use Rattle.m68k_decode.specs.Instructions.{of_words};

use crate::Op;

/// A decoded instruction.
///
/// Source: M68000 Programmer's Reference Manual, sections 4 and 8.
#[derive(Clone, Copy)]
pub struct Decoded {
    pub op: Op,
    /// The bytes of the instruction with its extension words, 2 to 10.
    pub length: u8,
}

impl Decoded {
    /// An instruction of so many words.
    #[inline(always)]
    pub(crate) fn of_words(count: u8, op: Op) -> Self
        requires { count ≤ 5 }
        ensures { result ≡ of_words count op }
    {
        Decoded {
            op,
            length: 2 * count,
        }
    }
}
