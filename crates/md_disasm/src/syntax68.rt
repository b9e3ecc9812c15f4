ghost use Rattle.std.specs.Prelude.{◌≡◌, ◌++◌};
ghost use Rattle.md_disasm.specs.Rows68 as rows;
ghost use Rattle.md_disasm.specs.Shown68.{shown68};

use crate::operand68::Operand68::{self, Nothing};
use md_word::Size;

/// The syntax of an instruction of the 68000 in its assembler.
#[derive(Clone, Copy)]
pub(crate) struct Syntax68 {
    /// The name without its suffix.
    pub mnemonic: &'static str,
    /// The suffix of the name: a condition, or the letter of a form.
    pub ending: &'static str,
    pub size: Option<Size>,
    pub first: Operand68,
    pub second: Operand68,
}

impl Syntax68 {
    /// The same with a size.
    pub(crate) fn sized(self, size: Size) -> Syntax68
        ensures { shown68 result ≡ rows.sized size (shown68 self) }
    {
        Syntax68 {
            size: Some(size),
            ..self
        }
    }
}

/// A name without operands.
pub(crate) fn none(name: &'static str) -> Syntax68
    ensures { shown68 result ≡ rows.none name.now }
{
    two(name, Nothing, Nothing)
}

/// A name with one operand.
pub(crate) fn one(name: &'static str, operand: Operand68) -> Syntax68
    ensures { shown68 result ≡ rows.one name.now operand }
{
    two(name, operand, Nothing)
}

/// A name with two operands, in the order of the text.
pub(crate) fn two(name: &'static str, first: Operand68, second: Operand68) -> Syntax68
    ensures { shown68 result ≡ rows.two name.now first second }
{
    ended(name, "", first, second)
}

/// A name of two parts with two operands.
pub(crate) fn ended(
    mnemonic: &'static str,
    ending: &'static str,
    first: Operand68,
    second: Operand68,
) -> Syntax68
    ensures { shown68 result ≡ rows.two (mnemonic.now ++ ending.now) first second }
{
    Syntax68 {
        mnemonic,
        ending,
        size: None,
        first,
        second,
    }
}
