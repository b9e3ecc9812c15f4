pub(crate) mod ahead;
pub(crate) mod fm;
pub(crate) mod main;
pub(crate) mod psg;
pub(crate) mod renderer;
pub(crate) mod sub;

use fm::FmChip;
use main::MainChip;
use psg::PsgChip;
use renderer::RendererChip;
use sub::SubChip;

/// A chip of the machine.
#[derive(Drop)]
pub enum Chip {
    /// The 68000, chip 0.
    Main(MainChip),
    /// The Z80, chip 1.
    Sub(SubChip),
    /// The drawing half of the VDP, chip 2.
    Renderer(RendererChip),
    /// The FM synthesis, chip 3.
    Fm(FmChip),
    /// The PSG synthesis, chip 4.
    Psg(PsgChip),
}
