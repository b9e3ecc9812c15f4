ghost use Rattle.std.specs.Prelude.{◌≡◌, ◌≤◌, ◌+◌, IfOk, false, slice_index_or, vec_len, ℕ};
ghost use Rattle.md_asm.specs.Places as places;
ghost use Rattle.md_asm.specs.Seen.{cells_seen};

use md_word::NoMemory;
use std::alloc::Global;

/// The number of places: each byte of an image is below this one.
pub(crate) const PLACES: usize = 4_194_304;

/// The places that were written.
#[derive(Drop)]
pub(crate) struct Cells {
    pub(crate) marks: Vec<bool>,
}

/// So many places that are not written. It fails where memory runs out.
#[tactic(auto, using(crate::proofs::Places::none_marked))]
fn unwritten(alloc: Global, count: usize) -> Result<Vec<bool>, NoMemory>
    ensures marks { IfOk result (λ marks. (k : ℕ) → slice_index_or marks.items k false ≡ false) }
    ensures long { IfOk result (λ marks. vec_len marks ≡ count) }
{
    vec![in alloc; false; count]
}

impl Cells {
    /// No place is written. It fails where memory runs out.
    pub(crate) fn new(alloc: Global) -> Result<Self, NoMemory>
        ensures seen { IfOk result (λ cells. cells_seen cells ≡ (λ _. false)) }
        ensures long { IfOk result (λ cells. vec_len cells.marks ≡ places.image_limit) }
    {
        let marks = unwritten(alloc, PLACES)?;
        Ok(Cells { marks })
    }

    /// Whether one of so many places was written.
    pub(crate) fn any(&self, place: u32, long: usize) -> bool
        requires { vec_len self.now.marks ≡ places.image_limit }
        ensures { result ≡ places.any_written (cells_seen self.now) place long }
    {
        let mut at = place as usize;
        let mut left = long;
        while left > 0 && at < PLACES {
            if self.marks[at] {
                return true;
            }
            at += 1;
            left -= 1;
        }
        false
    }

    /// Marks so many places as written.
    pub(crate) fn mark(&mut self, place: u32, long: usize)
        requires whole { vec_len self.old.marks ≡ places.image_limit }
        requires within { place + long ≤ places.image_limit }
        ensures seen { cells_seen self.new ≡ places.with_written (cells_seen self.old) place long }
        ensures whole { vec_len self.new.marks ≡ places.image_limit }
    {
        let start = place as usize;
        for k in start..start + long {
            self.marks[k] = true;
        }
    }
}
