//! The ports of the VDP on the board, with the PSG beside them.
ghost use Rattle.std.specs.Prelude.{◌≡◌, ◌<◌, ◌≤◌};
ghost use Rattle.md_word.specs.Clock.{cycle_limit};
ghost use Rattle.bus_shared.specs.Video as video;

use crate::port::VideoPort;
use crate::prerendered::stays;
use crate::shared::Shared;
use crate::video::{acknowledge, read_port, take_word, write_port};
use md_word::{Key, Transfer};

impl Shared {
    /// Reads a port of the VDP.
    pub(crate) fn read_video(&mut self, key: Key, address: u32) -> u16
        requires { key.cycle ≤ cycle_limit }
        ensures value { result ≡ video.port_word (video.port_at address) key.cycle self.old.vdp }
        ensures board { self.new ≡ video.video_read self.old key address }
    {
        self.fits = stays(self.fits, self.vdp.left, false);
        read_port(VideoPort::at(address), &mut self.vdp, key.cycle)
    }

    /// Writes a word to a port of the VDP: the transfer that it starts, `None` where it starts none.
    fn write_video(&mut self, key: Key, port: VideoPort, word: u16) -> Option<Transfer>
        requires { key.cycle ≤ cycle_limit }
        ensures board { self.new ≡ record self.old { vdp = video.port_written port key.cycle word self.old.vdp } }
        ensures transfer { result ≡ video.port_transfer port key.cycle word self.old.vdp }
    {
        self.fits = false;
        write_port(port, &mut self.vdp, key.cycle, word)
    }

    /// Writes a byte to a port of the VDP, or that of an odd address to the PSG: the transfer that it
    /// starts, `None` where it starts none.
    #[tactic(auto, unfolding(crate::specs::Video::video_byte_written, crate::specs::Video::port_transfer))]
    pub(crate) fn write_video_byte(&mut self, key: Key, address: u32, value: u8) -> Option<Transfer>
        requires chip { key.chip < 2 }
        requires soon { key.cycle ≤ cycle_limit }
        ensures board { self.new ≡ video.video_byte_written (video.port_at address) self.old key address value }
        ensures transfer { result ≡ video.port_transfer (video.port_at address) key.cycle (video.both_halves value) self.old.vdp }
    {
        match VideoPort::at(address) {
            VideoPort::Sound => {
                if address % 2 == 1 {
                    self.write_psg(key, value);
                }
                None
            }
            port => self.write_video(key, port, u16::from(value) * 0x101),
        }
    }

    /// Writes a word to a port of the VDP, or its low byte to the PSG: the transfer that it starts,
    /// `None` where it starts none.
    #[tactic(auto, unfolding(crate::specs::Video::video_word_written, crate::specs::Video::port_transfer))]
    pub(crate) fn write_video_word(
        &mut self,
        key: Key,
        address: u32,
        value: u16,
    ) -> Option<Transfer>
        requires chip { key.chip < 2 }
        requires soon { key.cycle ≤ cycle_limit }
        ensures board { self.new ≡ video.video_word_written (video.port_at address) self.old key value }
        ensures transfer { result ≡ video.port_transfer (video.port_at address) key.cycle value self.old.vdp }
    {
        match VideoPort::at(address) {
            VideoPort::Sound => {
                self.write_psg(key, (value % 0x100) as u8);
                None
            }
            port => self.write_video(key, port, value),
        }
    }

    /// The 68000 takes the interrupt of a level.
    pub(crate) fn acknowledge(&mut self, level: u8)
        ensures { self.new ≡ video.video_acknowledged self.old level }
    {
        acknowledge(&mut self.vdp, level);
    }

    /// Hands the VDP a word of a transfer: the master cycles to the next.
    pub(crate) fn take_word(&mut self, key: Key, word: u16) -> u16
        requires { key.cycle ≤ cycle_limit }
        ensures cost { result ≡ video.word_cost key.cycle self.old.vdp }
        ensures board { self.new ≡ video.word_taken self.old key word }
    {
        self.fits = false;
        take_word(&mut self.vdp, key.cycle, word)
    }
}
