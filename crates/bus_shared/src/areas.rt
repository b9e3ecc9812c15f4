//! The areas of the 68000's address map that the chips share.
ghost use Rattle.std.specs.Prelude.{◌≡◌, ◌≤◌};
ghost use Rattle.md_word.specs.Clock.{cycle_limit};
ghost use Rattle.md_word.specs.Map.{area_of};
ghost use Rattle.bus_shared.specs.Areas as areas;
ghost use Rattle.bus_shared.specs.Video as video;

use crate::register::Register;
use crate::shared::Shared;
use crate::video::{OPEN_WORD, half_at};
use crate::z80_space::OPEN_BYTE;
use md_word::{Area, Key, Transfer};

impl Shared {
    #[tactic(auto, unfolding(crate::specs::Areas::byte_in, crate::specs::Areas::read_in))]
    pub(crate) fn read_byte(&mut self, key: Key, address: u32) -> u8
        requires { key.cycle ≤ cycle_limit }
        ensures value { result ≡ areas.byte_at (area_of address) self.old key address }
        ensures board { self.new ≡ areas.read_at (area_of address) self.old key address }
    {
        match Area::of(address) {
            Some(Area::Z80Space) => self.read_space(key.cycle, (address % 0x1_0000) as u16),
            Some(Area::InputOutput) => self.read_register(key.cycle, Register::at(address)),
            Some(Area::BusRequest) if address % 2 == 0 => self.request_bit(),
            Some(Area::BusRequest | Area::Z80Reset) => 0,
            Some(Area::VideoPorts) => half_at(address, self.read_video(key, address)),
            None => OPEN_BYTE,
        }
    }

    #[tactic(auto, unfolding(crate::specs::Areas::word_in, crate::specs::Areas::read_in))]
    pub(crate) fn read_word(&mut self, key: Key, address: u32) -> u16
        requires { key.cycle ≤ cycle_limit }
        ensures value { result ≡ areas.word_at (area_of address) self.old key address }
        ensures board { self.new ≡ areas.read_at (area_of address) self.old key address }
    {
        match Area::of(address) {
            Some(Area::Z80Space) => {
                u16::from(self.read_space(key.cycle, (address % 0x1_0000) as u16)) * 0x101
            }
            Some(Area::InputOutput) => {
                u16::from(self.read_register(key.cycle, Register::at(address))) * 0x101
            }
            Some(Area::BusRequest) => u16::from(self.request_bit()) * 0x100,
            Some(Area::Z80Reset) => 0,
            Some(Area::VideoPorts) => self.read_video(key, address),
            None => OPEN_WORD,
        }
    }

    #[tactic(auto, unfolding(crate::specs::Areas::byte_written_in, crate::specs::Areas::transfer_in))]
    pub(crate) fn write_byte(&mut self, key: Key, address: u32, value: u8) -> Option<Transfer>
        requires chip { key.chip ≡ 0 }
        requires soon { key.cycle ≤ cycle_limit }
        ensures board { self.new ≡ areas.byte_written_at (area_of address) self.old key address value }
        ensures transfer { result ≡ areas.transfer_at (area_of address) self.old key address (video.both_halves value) }
    {
        match Area::of(address) {
            Some(Area::Z80Space) => self.write_space(key, (address % 0x1_0000) as u16, value),
            Some(Area::InputOutput) => self.write_register(key.cycle, Register::at(address), value),
            Some(Area::BusRequest) if address % 2 == 0 => self.write_request(value % 2),
            Some(Area::Z80Reset) if address % 2 == 0 => self.write_reset(key, value % 2),
            Some(Area::VideoPorts) => return self.write_video_byte(key, address, value),
            _ => {}
        }
        None
    }

    #[tactic(auto, unfolding(crate::specs::Areas::word_written_in, crate::specs::Areas::transfer_in))]
    pub(crate) fn write_word(&mut self, key: Key, address: u32, value: u16) -> Option<Transfer>
        requires chip { key.chip ≡ 0 }
        requires soon { key.cycle ≤ cycle_limit }
        ensures board { self.new ≡ areas.word_written_at (area_of address) self.old key address value }
        ensures transfer { result ≡ areas.transfer_at (area_of address) self.old key address value }
    {
        let high = (value / 0x100) as u8;
        let low = (value % 0x100) as u8;
        match Area::of(address) {
            Some(Area::Z80Space) => self.write_space(key, (address % 0x1_0000) as u16, high),
            Some(Area::InputOutput) => self.write_register(key.cycle, Register::at(address), low),
            Some(Area::BusRequest) => self.write_request(high % 2),
            Some(Area::Z80Reset) => self.write_reset(key, high % 2),
            Some(Area::VideoPorts) => return self.write_video_word(key, address, value),
            None => {}
        }
        None
    }
}
