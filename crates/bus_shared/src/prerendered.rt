//! The buffer of pre-rendered lines, while the board has one.
ghost use Rattle.std.specs.Prelude.{◌≡◌, ◌≤◌, IfSome, true, false};
ghost use Rattle.vdp_planes.specs.View.{view_of};

use crate::shared::Shared;
use vdp_ahead::LineBuffer;

impl Shared {
    /// Begins a buffer for the lines of a picture of a region, from the first up to but not including the
    /// second, with the VDP as it is.
    pub fn begin_line_buffer(&self, line_buffer: &mut LineBuffer, pal: bool, from: u32, until: u32)
        requires { from ≤ 240 }
        ensures { line_buffer.new ≡ record { view = view_of pal self.now.vdp; from = from; to = from; until = until } }
    {
        line_buffer.begin(&self.vdp, pal, from, until);
    }

    /// Gives the board a buffer. It is of use as long as the VDP is as the buffer shows it.
    pub fn lay_line_buffer(&mut self, line_buffer: Box<LineBuffer>)
        ensures { self.new ≡ self.old }
    {
        self.fits = line_buffer.is_of(&self.vdp);
        self.line_buffer = Some(line_buffer);
    }

    /// Takes the buffer off the board. `None`: the board has none.
    pub fn take_line_buffer(&mut self) -> Option<Box<LineBuffer>>
        ensures { self.new ≡ self.old }
    {
        self.fits = false;
        self.line_buffer.take()
    }

    /// The buffer on the board. `None`: the board has none, or the VDP is no longer as the buffer shows it.
    #[inline]
    pub fn line_buffer(&self) -> Option<&LineBuffer>
        ensures { IfSome result (λ s. s.now.view ≡ view_of s.now.view.pal self.now.vdp) }
    {
        if !self.fits {
            return None;
        }
        match &self.line_buffer {
            Some(line_buffer) => Some(line_buffer),
            None => None,
        }
    }
}

/// Whether a buffer that fits continues to fit: no byte of a fill or copy is left, and the height is not
/// latched.
#[inline(always)]
pub(crate) fn stays(fits: bool, left: u32, is_latched: bool) -> bool
    ensures fits { result ≡ true → fits ≡ true }
    ensures still { result ≡ true → left ≡ 0 }
    ensures kept { result ≡ true → is_latched ≡ false }
{
    fits && left == 0 && !is_latched
}
