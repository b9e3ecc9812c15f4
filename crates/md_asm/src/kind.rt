ghost use Rattle.std.specs.Prelude.{◌≡◌};
ghost use Rattle.md_asm.specs.Assembly.{number_of};

/// What is wrong with a line.
#[derive(Clone, Copy, PartialEq, Eq)]
pub(crate) enum Kind {
    /// It has no form.
    BadLine,
    /// A written number does not fit.
    BadNumber,
    /// Its label was defined before.
    Twice,
    /// An instruction of the 68000 or `dc.w` is at an odd place.
    Odd,
    /// A byte is at a place that was written before.
    Overlap,
    /// A byte is at 400000h or above.
    TooLarge,
    /// A name is defined in no line.
    UnknownName,
    /// The value of a name does not fit.
    DoesNotFit,
    /// A displacement lies outside its form, or is 0 in a byte branch of the 68000.
    Far,
}

/// The number of a kind, 1 to 9.
pub(crate) fn number(kind: Kind) -> u8
    ensures { result ≡ number_of kind }
{
    match kind {
        Kind::BadLine => 1,
        Kind::BadNumber => 2,
        Kind::Twice => 3,
        Kind::Odd => 4,
        Kind::Overlap => 5,
        Kind::TooLarge => 6,
        Kind::UnknownName => 7,
        Kind::DoesNotFit => 8,
        Kind::Far => 9,
    }
}
