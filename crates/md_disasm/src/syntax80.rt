ghost use Rattle.std.specs.Prelude.{◌≡◌};
ghost use Rattle.md_disasm.specs.Rows80 as rows;
ghost use Rattle.md_disasm.specs.Shown80.{shown80};

use crate::operand80::Operand80::{self, Nothing};

/// The syntax of an instruction of the Z80 in its assembler.
#[derive(Clone, Copy)]
pub(crate) struct Syntax80 {
    pub name: &'static str,
    pub first: Operand80,
    pub second: Operand80,
}

/// A name without operands.
pub(crate) fn none(name: &'static str) -> Syntax80
    ensures { shown80 result ≡ rows.none name.now }
{
    two(name, Nothing, Nothing)
}

/// A name with one operand.
pub(crate) fn one(name: &'static str, operand: Operand80) -> Syntax80
    ensures { shown80 result ≡ rows.one name.now operand }
{
    two(name, operand, Nothing)
}

/// A name with two operands, in the order of the text.
pub(crate) fn two(name: &'static str, first: Operand80, second: Operand80) -> Syntax80
    ensures { shown80 result ≡ rows.two name.now first second }
{
    Syntax80 {
        name,
        first,
        second,
    }
}
