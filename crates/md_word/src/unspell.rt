ghost use Rattle.std.specs.Prelude.{◌≡◌};

/// Why memory that was asked for is not there: the one error when memory is out.
pub use std::alloc::AllocError as NoMemory;

/// Why bytes of a saved state are refused as the spelling of a value.
#[derive(Clone, Copy, PartialEq, Eq, Debug)]
pub enum Unspell {
    /// A field breaks its rule, or the length is wrong.
    Rule {
        /// The offset of the first field whose rule fails; where the length is wrong, the lesser of
        /// the two lengths.
        place: u64,
    },
    NoMemory,
}

impl From<NoMemory> for Unspell {
    ghost use Rattle.md_word.specs.declared.unspell.Unspell.TheVariants.{NoMemory};

    ghost from_gives = { λ _ fault. fault ≡ NoMemory };

    fn from(_: NoMemory) -> Self {
        Unspell::NoMemory
    }
}
