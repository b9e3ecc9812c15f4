ghost use Rattle.std.specs.Prelude.{◌≡◌};
ghost use Rattle.md_word.specs.Map as map;

/// An area of the 68000's addresses that it shares with other chips. The cartridge and the work RAM
/// are its own. Source: Genesis Technical Overview, the memory map of the 68000.
#[derive(Clone, Copy, PartialEq, Eq, Debug)]
pub enum Area {
    /// The Z80's RAM and sound chips, A00000h to A0FFFFh.
    Z80Space,
    /// The version register and the pads, A10000h to A1001Fh.
    InputOutput,
    /// The request for the Z80's bus, A11100h and A11101h.
    BusRequest,
    /// The Z80's reset, A11200h and A11201h.
    Z80Reset,
    /// The VDP and the PSG, C00000h to C0001Fh.
    VideoPorts,
}

impl Area {
    /// The area of an address on the bus; none where the address is not shared.
    #[tactic(auto, unfolding(crate::specs::Map::area_of))]
    pub fn of(address: u32) -> Option<Area>
        ensures { result ≡ map.area_of address }
    {
        match address {
            0xa0_0000..=0xa0_ffff => Some(Area::Z80Space),
            0xa1_0000..=0xa1_001f => Some(Area::InputOutput),
            0xa1_1100..=0xa1_1101 => Some(Area::BusRequest),
            0xa1_1200..=0xa1_1201 => Some(Area::Z80Reset),
            0xc0_0000..=0xc0_001f => Some(Area::VideoPorts),
            _ => None,
        }
    }
}

/// Whether an address on the bus is shared with other chips.
#[inline(always)]
#[tactic(auto, unfolding(crate::specs::Map::is_shared, crate::specs::Map::area_of))]
pub fn is_shared(address: u32) -> bool
    ensures { result ≡ map.is_shared address }
{
    matches!(
        address,
        0xa0_0000..=0xa0_ffff
            | 0xa1_0000..=0xa1_001f
            | 0xa1_1100..=0xa1_1101
            | 0xa1_1200..=0xa1_1201
            | 0xc0_0000..=0xc0_001f
    )
}
