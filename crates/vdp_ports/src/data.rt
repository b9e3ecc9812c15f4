ghost use Rattle.std.specs.Prelude.{◌≡◌, ◌<◌, ◌≤◌, ℕ};
ghost use Rattle.md_word.specs.Clock.{cycle_limit};
ghost use Rattle.vdp_ports.specs.Cases.{IsDataWrite};
ghost use Rattle.vdp_ports.specs.Pins.{HasSamePins};
ghost use Rattle.vdp_ports.specs.Rules.{HasRules};
ghost use Rattle.vdp_ports.specs.Data as meaning;

use crate::code::{CRAM_READ, CRAM_WRITE, VRAM_READ, VRAM_WRITE, VSRAM_READ, VSRAM_WRITE};
use crate::memory::{put_word, word_at};
use crate::register::INCREMENT;
use crate::state::VdpState;

/// The bits of a colour: blue 11 to 9, green 7 to 5, red 3 to 1.
pub(crate) const COLOUR: u16 = 0x0eee;
/// The bits of a vertical scroll.
pub(crate) const SCROLL: u16 = 0x07ff;
/// How many vertical scrolls there are.
const SCROLLS: usize = 40;

impl VdpState {
    /// A data write that starts no armed fill, as each word of a transfer is. It ends the pending
    /// state.
    #[tactic(auto, unfolding(crate::specs::Data::transferred))]
    pub fn transfer(&mut self, word: u16)
        ensures value { self.new ≡ meaning.transferred word self.old }
        ensures rules { (at : ℕ) → HasRules at self.old → HasRules at self.new }
        ensures pins { HasSamePins self.old self.new }
    {
        self.put(word);
        self.access();
    }

    /// A data write at a cycle, to which fill and copy are settled. It ends the pending state and
    /// starts the fill that is armed.
    pub fn data_write(&mut self, cycle: u64, word: u16)
        requires { cycle ≤ cycle_limit }
        ensures value { self.new ≡ meaning.written cycle word self.old }
        ensures cases { IsDataWrite cycle word self.old self.new }
        ensures rules { (at : ℕ) → cycle < at → HasRules at self.old → HasRules at self.new }
        ensures pins { HasSamePins self.old self.new }
    {
        self.write_data(cycle, word);
    }

    /// A data read, with fill and copy settled to its cycle. It ends the pending state.
    pub fn data_read(&mut self) -> u16
        ensures value { result ≡ meaning.read self.old }
        ensures after { self.new ≡ meaning.accessed self.old }
        ensures rules { (at : ℕ) → HasRules at self.old → HasRules at self.new }
        ensures pins { HasSamePins self.old self.new }
    {
        let word = self.word();
        self.access();
        word
    }

    #[tactic(auto, unfolding(crate::specs::Data::written))]
    fn write_data(&mut self, cycle: u64, word: u16)
        requires { cycle ≤ cycle_limit }
        ensures { self.new ≡ meaning.written cycle word self.old }
    {
        let armed = self.armed;
        self.transfer(word);
        if armed {
            self.fill(cycle, word);
        }
    }

    /// Ends the pending state, and raises the address.
    #[tactic(auto, unfolding(crate::specs::Data::accessed))]
    fn access(&mut self)
        ensures { self.new ≡ meaning.accessed self.old }
    {
        self.pending = false;
        self.a = self.a.wrapping_add(u16::from(self.registers[INCREMENT]));
    }

    /// The colour or vertical scroll that the address points to, 0 to 63.
    #[inline]
    fn place(&self) -> usize
        ensures value { result ≡ meaning.place self.now }
        ensures below { result < 64 }
    {
        usize::from(self.a / 2 % 64)
    }

    /// Writes a word at the address, by the code.
    #[tactic(auto, unfolding(crate::specs::Data::put))]
    fn put(&mut self, word: u16)
        ensures { self.new ≡ meaning.put word self.old }
    {
        let place = self.place();
        match self.code % 16 {
            VRAM_WRITE => put_word(&mut self.vram, self.a, word),
            CRAM_WRITE => self.cram[place] = word & COLOUR,
            VSRAM_WRITE => {
                if place < SCROLLS {
                    self.vsram[place] = word & SCROLL;
                }
            }
            _ => {}
        }
    }

    /// The word at the address, by the code.
    #[tactic(auto, unfolding(crate::specs::Data::read))]
    fn word(&self) -> u16
        ensures { result ≡ meaning.read self.now }
    {
        let place = self.place();
        match self.code % 16 {
            VRAM_READ => word_at(&self.vram, self.a),
            CRAM_READ => self.cram[place],
            VSRAM_READ if place < SCROLLS => self.vsram[place],
            _ => 0,
        }
    }
}
