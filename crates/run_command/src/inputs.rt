use md_pads::Recording;
use rom_header::Cart;

/// What a run is given.
#[derive(Drop)]
pub struct Inputs {
    pub cart: Cart,
    /// What is pressed on the pads. It has no frames where no recording is named.
    pub recording: Recording,
    /// Whether the machine is one for PAL, where it is not that of a saved state.
    pub pal: bool,
}
