ghost use Rattle.std.specs.Prelude.{◌≡◌};
ghost use Rattle.md_asm.specs.Seen.{image_seen, lines_seen};

use crate::placed::Placed;

/// What a source is assembled to.
#[derive(Drop)]
pub struct Assembled {
    pub(crate) image: Vec<u8>,
    pub(crate) lines: Vec<Placed>,
}

impl Assembled {
    /// The image, up to the last byte that is written; bytes that no line has are 0.
    pub fn image(&self) -> &[u8]
        ensures { result.now ≡ image_seen self.now }
    {
        self.image.as_slice()
    }

    /// Where each instruction is, in the order of the lines.
    pub fn lines(&self) -> &[Placed]
        ensures { result.now ≡ lines_seen self.now }
    {
        self.lines.as_slice()
    }
}
