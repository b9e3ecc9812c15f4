ghost use Rattle.std.specs.Prelude.{◌≡◌, ◌<◌, ◌+◌, ◌^◌, slice_index};
ghost use Rattle.asm_laws.specs.Places as places;

/// The byte of an image at a place; after its end it is 0.
fn byte_at(image: &[u8], place: usize) -> u8
    ensures { result ≡ slice_index image.now place }
{
    if place < image.len() { image[place] } else { 0 }
}

/// The word of an image at a place.
fn word_at(image: &[u8], place: usize) -> u16
    requires { place < 2 ^ 40 }
    ensures { result ≡ places.word_at image.now place }
{
    u16::from(byte_at(image, place)) * 256 + u16::from(byte_at(image, place + 1))
}

/// The five words of an instruction of the 68000 at a place.
pub(crate) fn words_from(image: &[u8], place: u32) -> [u16; 5]
    ensures { result ≡ places.words_from image.now place }
{
    let first = place as usize;
    [
        word_at(image, first),
        word_at(image, first + 2),
        word_at(image, first + 4),
        word_at(image, first + 6),
        word_at(image, first + 8),
    ]
}

/// The four bytes of an instruction of the Z80 at a place.
pub(crate) fn bytes_from(image: &[u8], place: u32) -> [u8; 4]
    ensures { result ≡ places.bytes_from image.now place }
{
    let first = place as usize;
    [
        byte_at(image, first),
        byte_at(image, first + 1),
        byte_at(image, first + 2),
        byte_at(image, first + 3),
    ]
}
