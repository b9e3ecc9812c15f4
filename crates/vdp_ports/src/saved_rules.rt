//! Which numbers a saved state may keep of a VDP.
ghost use Rattle.std.specs.Prelude.{◌≡◌};
ghost use Rattle.vdp_ports.specs.Saved as rules;

use crate::dma::{COPY, FILL, NO_DMA};
use crate::saved::SavedVdp;
use md_fields::is_after;
use md_word::clock::LINE;

/// How far after the cycle of a saved state the next byte of a fill or copy can be, in master cycles.
const FILL_FAR: u64 = 16;

const COPY_FAR: u64 = 33;

impl<'a> SavedVdp<'a> {
    pub(crate) fn is_address(&self) -> bool
        ensures { result ≡ rules.is_address self.now }
    {
        if self.dma_kind == NO_DMA {
            self.address == 0
        } else {
            true
        }
    }

    pub(crate) fn is_left(&self) -> bool
        ensures { result ≡ rules.is_left self.now }
    {
        if self.dma_kind == NO_DMA {
            self.left == 0
        } else {
            1 <= self.left && self.left <= 65_536
        }
    }

    pub(crate) fn is_next_stamp(&self, at: u64) -> bool
        ensures { result ≡ rules.is_next_stamp at self.now }
    {
        if self.dma_kind == NO_DMA {
            return self.next_stamp == 0;
        }
        let far = if self.dma_kind == FILL {
            FILL_FAR
        } else {
            COPY_FAR
        };
        at <= self.next_stamp && self.next_stamp - at <= far
    }

    pub(crate) fn is_interval(&self, at: u64) -> bool
        ensures { result ≡ rules.is_interval at self.now }
    {
        (self.int_from == 0 && self.int_to == 0) || self.is_begun(at)
    }

    /// Whether an interrupt of the Z80 began with a line, and is a line long.
    fn is_begun(&self, at: u64) -> bool
        ensures { result ≡ rules.is_begun at self.now }
    {
        self.int_from % LINE == 0
            && self.int_from < at
            && is_after(self.int_to, self.int_from, LINE)
    }
}

/// Whether words have no other bits than these.
pub(crate) fn have_only(bits: u16, words: &[u16]) -> bool
    ensures { result ≡ rules.have_only bits words.now }
{
    words.iter().all(|word| *word & bits == *word)
}
