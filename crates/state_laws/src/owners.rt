//! Further owners of what images are read with, and whether bytes are an image.

ghost use Rattle.std.specs.Prelude.{◌≡◌, ◌↔◌, IfOk, IsTrue};
ghost use Rattle.std.specs.Arc.{arc_value};

use md_pads::Recording;
use md_word::NoMemory;
use rom_header::Cart;
use std::sync::Arc;

/// Another owner of the cartridge. It fails only when there are too many.
pub fn same_cart(cart: &Arc<Cart>) -> Result<Arc<Cart>, NoMemory>
    ensures { IfOk result (λ same. arc_value same ≡ arc_value cart.now) }
{
    cart.clone()
}

/// Another owner of the recording. It fails only when there are too many.
pub(crate) fn same_recording(recording: &Arc<Recording>) -> Result<Arc<Recording>, NoMemory>
    ensures { IfOk result (λ same. arc_value same ≡ arc_value recording.now) }
{
    recording.clone()
}

/// Whether bytes are an image, byte for byte.
pub(crate) fn is_same(image: &[u8], bytes: &[u8]) -> bool
    ensures { IsTrue result ↔ (image.now ≡ bytes.now) }
{
    image == bytes
}
