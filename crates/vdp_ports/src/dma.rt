ghost use Rattle.std.specs.Prelude.{◌≡◌, ◌≤◌};
ghost use Rattle.md_word.specs.Clock.{cycle_limit};
ghost use Rattle.vdp_ports.specs.Dma as meaning;

use crate::register::{INCREMENT, LENGTH_HIGH, LENGTH_LOW, SOURCE_LOW, SOURCE_MIDDLE};
use crate::state::VdpState;

/// Neither a fill nor a copy is in progress.
pub const NO_DMA: u8 = 0;

pub const FILL: u8 = 1;

pub const COPY: u8 = 2;

/// Master cycles from one byte of a fill to the next.
pub const FILL_STEP: u64 = 17;
/// Master cycles from one byte of a copy to the next.
pub const COPY_STEP: u64 = 34;

/// What is left of a fill or copy; all is 0 where neither is in progress. Source: Genesis Technical Overview,
/// DMA; the times of the bytes are this project's profile.
#[derive(Clone, Copy)]
pub struct Rest {
    /// What is in progress: `NO_DMA`, `FILL` or `COPY`.
    pub dma_kind: u8,
    /// What a fill writes.
    pub byte: u8,
    /// Where a copy reads next.
    pub source: u16,
    /// Where a fill or copy writes next.
    pub address: u16,
    /// How many of its bytes are left, at most 65,536.
    pub left: u32,
    /// The master cycle that its next byte is stamped with.
    pub next_stamp: u64,
}

impl VdpState {
    /// What is left of its fill or copy.
    pub fn rest(&self) -> Rest
        ensures { result ≡ meaning.rest_of self.now }
    {
        Rest {
            dma_kind: self.dma_kind,
            byte: self.byte,
            source: self.source,
            address: self.address,
            left: self.left,
            next_stamp: self.next_stamp,
        }
    }

    /// The length of what starts, 1 to 65,536: a length of 0 means 65,536.
    #[tactic(auto, unfolding(crate::specs::Dma::length_of))]
    pub(crate) fn length(&self) -> u32
        ensures value { result ≡ meaning.length_of self.now }
        ensures most { result ≤ 0x1_0000 }
    {
        let length = u32::from(self.registers[LENGTH_LOW])
            + 256 * u32::from(self.registers[LENGTH_HIGH]);
        if length == 0 { 65536 } else { length }
    }

    /// The port's address after all bytes of a fill or copy.
    #[tactic(auto, unfolding(crate::specs::Dma::end_of))]
    fn end(&self) -> u16
        ensures { result ≡ meaning.end_of self.now }
    {
        ((u32::from(self.a) + self.length() * u32::from(self.registers[INCREMENT]))
            % 0x1_0000) as u16
    }

    /// Drops the rest of a fill or copy, and an armed fill.
    #[tactic(auto, unfolding(crate::specs::Dma::dropped))]
    pub(crate) fn drop_rest(&mut self)
        ensures { self.new ≡ meaning.dropped self.old }
    {
        self.armed = false;
        self.dma_kind = NO_DMA;
        self.byte = 0;
        self.source = 0;
        self.address = 0;
        self.left = 0;
        self.next_stamp = 0;
    }

    /// Starts the fill whose data write was this word: its upper byte is what the fill writes.
    #[tactic(auto, unfolding(crate::specs::Dma::filling))]
    pub(crate) fn fill(&mut self, cycle: u64, word: u16)
        requires { cycle ≤ cycle_limit }
        ensures { self.new ≡ meaning.filling cycle word self.old }
    {
        let left = self.length();
        let end = self.end();
        self.armed = false;
        self.dma_kind = FILL;
        self.byte = (word >> 8) as u8;
        self.source = 0;
        self.address = self.a;
        self.left = left;
        self.next_stamp = cycle + FILL_STEP;
        self.a = end;
    }

    /// Starts a copy.
    #[tactic(auto, unfolding(crate::specs::Dma::copying))]
    pub(crate) fn copy(&mut self, cycle: u64)
        requires { cycle ≤ cycle_limit }
        ensures { self.new ≡ meaning.copying cycle self.old }
    {
        let left = self.length();
        let end = self.end();
        self.armed = false;
        self.dma_kind = COPY;
        self.byte = 0;
        self.source = u16::from(self.registers[SOURCE_LOW])
            + 256 * u16::from(self.registers[SOURCE_MIDDLE]);
        self.address = self.a;
        self.left = left;
        self.next_stamp = cycle + COPY_STEP;
        self.a = end;
    }
}
