ghost use Rattle.std.specs.Prelude.{◌≡◌, ◌<◌, ◌≤◌, ◌==◌, ◌||◌, ℕ, IsTrue};
ghost use Rattle.md_word.specs.Clock.{cycle_limit};
ghost use Rattle.vdp_ports.specs.Cases.{IsControlWrite};
ghost use Rattle.vdp_ports.specs.Pins.{HasSameInterval, HasSamePins};
ghost use Rattle.vdp_ports.specs.Rules.{HasRules};
ghost use Rattle.vdp_ports.specs.Control as meaning;

use crate::register::{MODE_1, MODE_2, SOURCE_HIGH, SOURCE_LOW, SOURCE_MIDDLE};
use crate::state::VdpState;

/// The level of the vertical interrupt.
const VERTICAL: u8 = 6;
/// The level of the horizontal interrupt.
const HORIZONTAL: u8 = 4;

impl VdpState {
    /// A control word at a cycle, to which fill and copy are settled. Answers the source and the
    /// words of the transfer that it starts, a byte address and a count of 1 to 65,536; `None` where it
    /// starts none.
    pub fn control_write(&mut self, cycle: u64, word: u16) -> Option<(u32, u32)>
        requires { cycle ≤ cycle_limit }
        ensures after { self.new ≡ meaning.controlled cycle word self.old }
        ensures transfer { result ≡ meaning.started_by word self.old }
        ensures cases { IsControlWrite cycle word self.old self.new result }
        ensures rules { (at : ℕ) → cycle < at → HasRules at self.old → HasRules at self.new }
        ensures interval { HasSameInterval self.old self.new }
    {
        self.write_control(cycle, word)
    }

    /// The status word, with the busy bit and HB and VB as they are given; bit 0 is 1 on PAL. Reading
    /// it ends the pending state, and clears overflow and collision.
    #[tactic(auto, unfolding(crate::specs::Control::status, crate::specs::Control::status_read))]
    pub fn control_read(&mut self, busy: bool, hb: bool, vb: bool) -> u16
        ensures value { result ≡ meaning.status busy hb vb self.old }
        ensures after { self.new ≡ meaning.status_read self.old }
        ensures rules { (at : ℕ) → HasRules at self.old → HasRules at self.new }
        ensures pins { HasSamePins self.old self.new }
    {
        let status = 512
            + 128 * u16::from(self.vertical)
            + 64 * u16::from(self.overflow)
            + 32 * u16::from(self.collision)
            + 8 * u16::from(vb)
            + 4 * u16::from(hb)
            + 2 * u16::from(busy)
            + u16::from(self.pal);
        self.pending = false;
        self.overflow = false;
        self.collision = false;
        status
    }

    /// The interrupt level: 6 where the vertical interrupt is pending and let through, else 4 where
    /// the horizontal one is, else 0.
    #[inline]
    #[tactic(auto, unfolding(crate::specs::Control::level))]
    pub fn level(&self) -> u8
        ensures value { result ≡ meaning.level self.now }
        ensures known { IsTrue (result == 0 || result == 4 || result == 6) }
    {
        if self.vertical && self.registers[MODE_2] / 32 % 2 == 1 {
            VERTICAL
        } else if self.horizontal && self.registers[MODE_1] / 16 % 2 == 1 {
            HORIZONTAL
        } else {
            0
        }
    }

    /// The 68000 takes the interrupt of a level, which is pending no longer.
    #[tactic(auto, unfolding(crate::specs::Control::acknowledged))]
    pub fn acknowledge(&mut self, level: u8)
        ensures value { self.new ≡ meaning.acknowledged level self.old }
        ensures rules { (at : ℕ) → HasRules at self.old → HasRules at self.new }
        ensures interval { HasSameInterval self.old self.new }
    {
        match level {
            VERTICAL => self.vertical = false,
            HORIZONTAL => self.horizontal = false,
            _ => {}
        }
    }

    #[tactic(auto, unfolding(crate::specs::Control::controlled, crate::specs::Control::started_by))]
    fn write_control(&mut self, cycle: u64, word: u16) -> Option<(u32, u32)>
        requires { cycle ≤ cycle_limit }
        ensures after { self.new ≡ meaning.controlled cycle word self.old }
        ensures transfer { result ≡ meaning.started_by word self.old }
    {
        if self.pending {
            self.second(word);
            let transfer = self.transfer_now();
            if self.starts() {
                self.start(cycle);
            }
            return transfer;
        }
        if word >> 14 == 2 {
            self.store(word);
        } else {
            self.first(word);
        }
        None
    }

    /// A control word that sets a register; there are 24.
    #[tactic(auto, unfolding(crate::specs::Control::stored))]
    fn store(&mut self, word: u16)
        ensures { self.new ≡ meaning.stored word self.old }
    {
        let index = usize::from(word >> 8 & 0x1f);
        if index < 24 {
            self.registers[index] = (word & 0xff) as u8;
        }
    }

    /// A first control word: CD1 and CD0, A13 to A0.
    #[tactic(auto, unfolding(crate::specs::Control::first))]
    fn first(&mut self, word: u16)
        ensures { self.new ≡ meaning.first word self.old }
    {
        self.pending = true;
        self.code = self.code / 4 * 4 + (word >> 14) as u8;
        self.a = self.a / 0x4000 * 0x4000 + word % 0x4000;
    }

    /// A second control word: CD5 to CD2, A15 and A14.
    #[tactic(auto, unfolding(crate::specs::Control::second))]
    fn second(&mut self, word: u16)
        ensures { self.new ≡ meaning.second word self.old }
    {
        self.pending = false;
        self.code = (word / 16 % 16) as u8 * 4 + self.code % 4;
        self.a = word % 4 * 0x4000 + self.a % 0x4000;
    }

    /// Whether a second word with this code starts a fill, copy or transfer.
    #[tactic(auto, unfolding(crate::specs::Control::starts))]
    fn starts(&self) -> bool
        ensures { result ≡ meaning.starts self.now }
    {
        self.code / 32 % 2 == 1 && self.registers[MODE_2] / 16 % 2 == 1
    }

    /// Whether what starts is a transfer.
    #[tactic(auto, unfolding(crate::specs::Control::transfers))]
    fn transfers(&self) -> bool
        ensures { result ≡ meaning.transfers self.now }
    {
        self.registers[SOURCE_HIGH] / 64 < 2
    }

    /// Drops what was in progress, and starts a transfer, arms a fill or starts a copy.
    #[tactic(auto, unfolding(crate::specs::Control::started))]
    fn start(&mut self, cycle: u64)
        requires { cycle ≤ cycle_limit }
        ensures { self.new ≡ meaning.started cycle self.old }
    {
        if self.transfers() {
            self.drop_rest();
        } else if self.registers[SOURCE_HIGH] / 64 == 2 {
            self.arm();
        } else {
            self.copy(cycle);
        }
    }

    /// Lets a fill wait for its data write.
    #[tactic(auto, unfolding(crate::specs::Control::armed))]
    fn arm(&mut self)
        ensures { self.new ≡ meaning.armed self.old }
    {
        self.drop_rest();
        self.armed = true;
    }

    /// The address of a transfer's first word.
    #[tactic(auto, unfolding(crate::specs::Control::source_of))]
    fn transfer_source(&self) -> u32
        ensures { result ≡ meaning.source_of self.now }
    {
        u32::from(self.registers[SOURCE_LOW]) * 2
            + u32::from(self.registers[SOURCE_MIDDLE]) * 512
            + u32::from(self.registers[SOURCE_HIGH] % 128) * 0x2_0000
    }

    /// Source and words of the transfer that starts.
    #[tactic(auto, unfolding(crate::specs::Control::transfer_of))]
    fn transfer_now(&self) -> Option<(u32, u32)>
        ensures { result ≡ meaning.transfer_of self.now }
    {
        if self.starts() && self.transfers() {
            Some((self.transfer_source(), self.length()))
        } else {
            None
        }
    }
}
