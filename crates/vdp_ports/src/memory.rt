ghost use Rattle.std.specs.Prelude.{◌≡◌, ◌<◌, length};
ghost use Rattle.vdp_ports.specs.Data as meaning;
ghost use Rattle.vdp_ports.specs.Vdp.{vram_size};

use crate::state::VRAM_SIZE;

/// The address of the other byte of a word: bit 0 is inverted.
#[inline]
#[tactic(auto, unfolding(crate::specs::Data::other))]
pub fn other_byte(address: u16) -> u16
    ensures { result ≡ meaning.other address }
{
    if address % 2 == 0 {
        address + 1
    } else {
        address - 1
    }
}

/// Writes a word: its upper byte at the address, the lower one beside it.
#[tactic(auto, unfolding(crate::specs::Data::with_word))]
pub(crate) fn put_word(vram: &mut [u8; VRAM_SIZE], address: u16, word: u16)
    requires { length vram.old ≡ vram_size }
    ensures value { vram.new ≡ meaning.with_word address word vram.old }
    ensures size { length vram.new ≡ vram_size }
{
    vram[usize::from(address)] = (word >> 8) as u8;
    vram[usize::from(other_byte(address))] = (word & 0xff) as u8;
}

/// The word that holds the byte at an address.
#[tactic(auto, unfolding(crate::specs::Data::word_at))]
pub(crate) fn word_at(vram: &[u8; VRAM_SIZE], address: u16) -> u16
    requires { length vram.now ≡ vram_size }
    ensures { result ≡ meaning.word_at vram.now address }
{
    let place = usize::from(address / 2 * 2);
    u16::from(vram[place]) * 256 + u16::from(vram[place + 1])
}
