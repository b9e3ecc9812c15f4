ghost use Rattle.std.specs.Prelude.{◌≡◌, ◌<◌, ◌^◌, map};
ghost use Rattle.md_fields.specs.Fields.{seen, size_of, holds_of, sizes, first_invalid};

/// A field of a saved state: its value, and whether its rule holds.
///
/// Numbers are spelled with the highest byte first. Of a field that is spelled as several of
/// these (a count and its list, say) the rule is at the first one, and the others hold.
#[derive(Clone, Copy)]
pub enum Field<'a> {
    /// A number of one byte.
    Byte(u8, bool),
    /// A number of two bytes.
    Word(u16, bool),
    /// A number of four bytes.
    Long(u32, bool),
    /// A number of eight bytes.
    Quad(u64, bool),
    /// Numbers of two bytes each.
    Words(&'a [u16], bool),
    /// Bytes as they are, a memory for example.
    Block(&'a [u8], bool),
}

impl<'a> Field<'a> {
    fn size(&self) -> usize
        ensures { result ≡ size_of (seen self.now) }
    {
        match self {
            Field::Byte(..) => 1,
            Field::Word(..) => 2,
            Field::Long(..) => 4,
            Field::Quad(..) => 8,
            Field::Words(numbers, _) => 2 * numbers.len(),
            Field::Block(bytes, _) => bytes.len(),
        }
    }

    fn holds(&self) -> bool
        ensures { result ≡ holds_of (seen self.now) }
    {
        match self {
            Field::Byte(_, holds)
            | Field::Word(_, holds)
            | Field::Long(_, holds)
            | Field::Quad(_, holds)
            | Field::Words(_, holds)
            | Field::Block(_, holds) => *holds,
        }
    }
}

/// The offset of the first field whose rule fails, in bytes from the first field on; None where each
/// rule holds.
#[tactic(auto, unfolding(crate::specs::Fields::sizes, crate::specs::Fields::first_invalid))]
pub fn first_invalid(fields: &[Field<'_>]) -> Option<usize>
    requires { sizes (map seen fields.now) < 2 ^ 32 }
    ensures { result ≡ first_invalid 0 (map seen fields.now) }
{
    let mut place = 0;
    let mut rest = fields;
    while let [field, after @ ..] = rest {
        if !field.holds() {
            return Some(place);
        }
        place += field.size();
        rest = after;
    }
    None
}
