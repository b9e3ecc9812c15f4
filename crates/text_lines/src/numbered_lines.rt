//! The lines of a text one after another, with their numbers.
ghost use Rattle.std.specs.Prelude.{◌≡◌, ◌+◌, ◌<◌, ◌^◌, ◌∷◌, [], length, IfSome, None};
ghost use Rattle.text_lines.specs.Lines.{lines_of};

use crate::lines::first_line;

/// The lines of a text that are left, and how many were taken.
#[derive(Drop)]
pub struct NumberedLines<'a> {
    /// What follows the lines that were taken.
    pub rest: &'a [u8],
    /// How many lines were taken, which is the number of the last one, from 1 on.
    pub number: u64,
}

impl<'a> NumberedLines<'a> {
    /// All lines of a text.
    pub fn of(text: &'a [u8]) -> NumberedLines<'a>
        ensures rest { result.rest.now ≡ text.now }
        ensures number { result.number ≡ 0 }
    {
        NumberedLines {
            rest: text,
            number: 0,
        }
    }

    /// Takes the next line; None where none is left.
    #[tactic(auto, using(crate::proofs::FirstLine::no_lines))]
    pub fn next(&mut self) -> Option<&'a [u8]>
        requires { self.old.number + length self.old.rest.now < 2 ^ 64 }
        ensures line { IfSome result (λ line. (lines_of self.old.rest.now ≡ line.now ∷ lines_of self.new.rest.now) × (self.new.number ≡ self.old.number + 1) × (length self.new.rest.now < length self.old.rest.now)) }
        ensures none { result ≡ None → lines_of self.old.rest.now ≡ [] }
    {
        if self.rest.is_empty() {
            return None;
        }
        let (line, after) = first_line(self.rest);
        self.rest = after;
        self.number += 1;
        Some(line)
    }
}
