// The numbers of registers. Source: Genesis Technical Overview, the VDP's registers.
ghost use Rattle.std.specs.Prelude.{◌≡◌};
ghost use Rattle.vdp_ports.specs.Vdp as meaning;

/// Bit 4 lets the horizontal interrupt through.
pub const MODE_1: usize = 0;
/// Bit 6 the display, bit 5 the vertical interrupt, bit 4 fills, copies and transfers, bit 3 the tall
/// display of PAL.
pub const MODE_2: usize = 1;
/// How many lines pass between two horizontal interrupts, less 1.
pub const LINE_INTERVAL: usize = 10;
/// What an access adds to the address.
pub const INCREMENT: usize = 15;
/// The length of a fill, copy or transfer, in bytes of a fill or copy and words of a transfer.
pub const LENGTH_LOW: usize = 19;

pub const LENGTH_HIGH: usize = 20;
/// Where a copy or transfer reads.
pub const SOURCE_LOW: usize = 21;

pub const SOURCE_MIDDLE: usize = 22;
/// Bits 7 and 6 choose between transfer, fill and copy.
pub const SOURCE_HIGH: usize = 23;

/// Whether the display is on.
#[inline]
pub fn is_shown(registers: &[u8; 24]) -> bool
    ensures { result ≡ meaning.is_shown registers.now }
{
    registers[MODE_2] / 64 % 2 == 1
}
