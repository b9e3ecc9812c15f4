ghost use Rattle.std.specs.Prelude.{◌≡◌, ℕ, length, map, IfErr, IfOk};
ghost use Rattle.md_fields.specs.Fields.{AreSized, seen};
ghost use Rattle.md_fields.specs.Items.{IsRight, Keeps};
ghost use Rattle.md_fields.specs.Places.{Stand};
ghost use Rattle.bus_shared.specs.Saved.{is_fall, lines_fields};
ghost use Rattle.bus_shared.specs.Spelling.{LinesInvalidAt, lines_size};

use md_fields::{Field, first_invalid, u8_at, u16_at, u64_at};

/// How many bytes of a saved state keep the lines and the pads.
pub const LINES_SIZE: usize = 36;

/// One more than the greatest word of a pad, which has at most twelve buttons.
const WORDS: u16 = 0x1000;

/// The numbers that a saved state keeps of the lines between the chips and of the pads, whatever they
/// are, in their order.
#[derive(Clone, Copy)]
pub struct SavedLines {
    /// Whether the Z80's bus is requested.
    pub bus_request: u8,
    /// Whether the Z80's reset is held.
    pub reset: u8,
    /// How often it was.
    pub resets: u64,
    /// The latches of the ports of pad 1 and pad 2.
    pub value1: u8,
    pub control1: u8,
    pub value2: u8,
    pub control2: u8,
    /// The words of the pads: which buttons are pressed.
    pub pads1: u16,
    pub pads2: u16,
    /// How many falls of TH each pad counted, and the master cycle of the last.
    pub count1: u8,
    pub fall1: u64,
    pub count2: u8,
    pub fall2: u64,
}

impl SavedLines {
    /// The numbers in the bytes.
    #[tactic(auto, unfolding(md_fields::specs::Places::Stand))]
    fn read(bytes: &[u8]) -> SavedLines
        requires { length bytes.now ≡ lines_size }
        ensures { (at : ℕ) → Stand 0 (lines_fields at result) bytes.now }
    {
        SavedLines {
            bus_request: u8_at(bytes, 0),
            reset: u8_at(bytes, 1),
            resets: u64_at(bytes, 2),
            value1: u8_at(bytes, 10),
            control1: u8_at(bytes, 11),
            value2: u8_at(bytes, 12),
            control2: u8_at(bytes, 13),
            pads1: u16_at(bytes, 14),
            pads2: u16_at(bytes, 16),
            count1: u8_at(bytes, 18),
            fall1: u64_at(bytes, 19),
            count2: u8_at(bytes, 27),
            fall2: u64_at(bytes, 28),
        }
    }

    /// The fields in their order, and whether their rules hold.
    #[tactic(auto, unfolding(md_fields::specs::Fields::AreSized))]
    pub fn fields(&self, at: u64) -> [Field<'_>; 13]
        ensures fields { map seen result ≡ lines_fields at self.now }
        ensures sizes { AreSized (map seen result) }
    {
        [
            Field::Byte(self.bus_request, self.bus_request <= 1),
            Field::Byte(self.reset, self.reset <= 1),
            Field::Quad(self.resets, self.resets <= at),
            Field::Byte(self.value1, true),
            Field::Byte(self.control1, true),
            Field::Byte(self.value2, true),
            Field::Byte(self.control2, true),
            Field::Word(self.pads1, self.pads1 < WORDS),
            Field::Word(self.pads2, self.pads2 < WORDS),
            Field::Byte(self.count1, self.count1 <= 4),
            Field::Quad(self.fall1, is_fall(at, self.count1, self.fall1)),
            Field::Byte(self.count2, self.count2 <= 4),
            Field::Quad(self.fall2, is_fall(at, self.count2, self.fall2)),
        ]
    }

    /// The numbers that the bytes keep, where the rules hold of them. The error is the offset of the first
    /// field whose rule fails, or the lesser of the number of bytes and 36 where there are not 36.
    pub fn checked(bytes: &[u8], at: u64) -> Result<SavedLines, usize>
        ensures found { IfOk result (λ lines. Keeps (lines_fields at) bytes.now lines × IsRight (lines_fields at) lines) }
        ensures refused { IfErr result (λ place. LinesInvalidAt at bytes.now place) }
    {
        if bytes.len() != LINES_SIZE {
            return Err(bytes.len().min(LINES_SIZE));
        }
        let lines = SavedLines::read(bytes);
        match first_invalid(&lines.fields(at)) {
            Some(place) => Err(place),
            None => Ok(lines),
        }
    }
}

/// Whether the last fall of so many was before a cycle, or is 0 where there is none.
fn is_fall(at: u64, count: u8, fall: u64) -> bool
    ensures { result ≡ is_fall at count fall }
{
    if count == 0 { fall == 0 } else { fall < at }
}
