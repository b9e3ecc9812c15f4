use md_word::NoMemory;

/// Why a source is not assembled.
#[derive(Clone, Copy, PartialEq, Eq, Debug, Drop)]
pub enum AsmFault {
    /// A line, counted from 1, is at fault. The kinds are 1 bad line, 2 bad number, 3 twice, 4 odd, 5 overlap, 6 too large,
    /// 7 unknown name, 8 does not fit, 9 far.
    Line { line: u32, kind: u8 },
    /// Memory ran out.
    NoMemory,
}

impl From<NoMemory> for AsmFault {
    ghost use Rattle.std.specs.Prelude.{◌≡◌};
    ghost use Rattle.md_asm.specs.declared.fault.AsmFault.TheVariants.{NoMemory};

    ghost from_gives = { λ _ fault. fault ≡ NoMemory };

    fn from(_: NoMemory) -> Self {
        AsmFault::NoMemory
    }
}
