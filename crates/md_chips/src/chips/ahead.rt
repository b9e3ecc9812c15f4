ghost use Rattle.std.specs.Prelude.{◌≡◌, ◌≤◌};

use bus_shared::Shared;
use md_word::NoMemory;
use std::alloc::Global;
use std::sync::Arc;
use std::sync::atomic::{AtomicBool, Ordering};
use vdp_ahead::{DoubleBuffer, LineBuffer, Place};

/// The first line that is drawn ahead of its event, where a helper draws some: by then the lines before it give
/// the helper the time to begin, and to draw those of the first line buffer.
const FIRST: u32 = 48;

/// The first line of the second line buffer.
const SECOND: u32 = 128;

/// The line after the last of any display.
const END: u32 = 240;

/// After how many pictures lines are drawn ahead again, where none of them was of use.
const REST: u8 = 8;

/// The lines of a picture that are drawn ahead of their events, in two pre-rendered scanline buffers.
#[derive(Drop)]
pub(crate) struct Ahead {
    /// Where line buffers go to be drawn, and return.
    double_buffer: Arc<DoubleBuffer>,
    /// A line buffer that lies neither there nor on the board.
    spare: Option<Box<LineBuffer>>,
    /// Another one, where both line buffers do.
    other: Option<Box<LineBuffer>>,
    /// Whether the memory of the line buffers has been asked for.
    prepared: AtomicBool,
    /// Whether lines of this picture are drawn ahead.
    asked: bool,
    /// Whether one of them was of use.
    used: bool,
    /// For how many pictures none are.
    rest: u8,
    alloc: Global,
}

impl Ahead {
    /// No line yet.
    pub(crate) fn new(alloc: Global) -> Result<Ahead, NoMemory> {
        Ok(Ahead {
            double_buffer: Arc::new(alloc, DoubleBuffer::new())?,
            spare: None,
            other: None,
            prepared: AtomicBool::new(false),
            asked: false,
            used: false,
            rest: 0,
            alloc,
        })
    }

    /// Where line buffers go to be drawn, for one who draws. With the first call both line buffers are made, and lie there
    /// without a line; where there is no memory for one, it is missing from there on.
    pub(crate) fn double_buffer(&self) -> Option<Arc<DoubleBuffer>> {
        if !self.prepared.swap(true, Ordering::SeqCst) {
            self.lay_blank(self.double_buffer.first());
            self.lay_blank(self.double_buffer.second());
        }
        self.double_buffer.clone().ok()
    }

    /// Lays a new line buffer without a line in an empty place, if there is memory for one.
    fn lay_blank(&self, place: &Place) {
        if let Ok(line_buffer) = LineBuffer::blank(self.alloc) {
            place.ask(line_buffer);
        }
    }

    /// Whether anyone has ever looked for a line buffer to draw.
    #[inline]
    pub(crate) fn is_watched(&self) -> bool {
        self.double_buffer.is_watched()
    }

    /// A line was taken from a line buffer.
    #[inline]
    pub(crate) fn was_of_use(&mut self) {
        self.used = true;
    }

    /// With the first line of a picture it asks for later lines to be drawn ahead. With the others it takes a line buffer
    /// back that was drawn, and lays it on the board.
    pub(crate) fn exchange(&mut self, line: u32, pal: bool, shared: &mut Shared)
        ensures { shared.new ≡ shared.old }
    {
        if line == 0 {
            self.begin(pal, shared);
        } else if line < SECOND {
            let line_buffer = self.double_buffer.first().take_drawn();
            self.lay(line_buffer, shared);
        } else {
            let line_buffer = self.double_buffer.second().take_drawn();
            self.lay(line_buffer, shared);
        }
    }

    /// Lays a line buffer on the board, if there is one, in the place of the one there.
    fn lay(&mut self, line_buffer: Option<Box<LineBuffer>>, shared: &mut Shared)
        ensures { shared.new ≡ shared.old }
    {
        if let Some(line_buffer) = line_buffer {
            if let Some(other) = shared.take_line_buffer() {
                self.put_by(other);
            }
            shared.lay_line_buffer(line_buffer);
        }
    }

    /// Asks for the later lines of a picture whose display is on, to be drawn from the VDP as it is.
    fn begin(&mut self, pal: bool, shared: &mut Shared)
        ensures { shared.new ≡ shared.old }
    {
        if self.is_worth_it(shared.scene(pal).is_shown()) {
            let first = self.idle_line_buffer(shared);
            let second = self.idle_line_buffer(shared);
            if let Some(line_buffer) = first {
                let back = ask(
                    line_buffer,
                    self.double_buffer.first(),
                    pal,
                    FIRST,
                    SECOND,
                    shared,
                );
                self.keep(back);
            }
            if let Some(line_buffer) = second {
                let back = ask(
                    line_buffer,
                    self.double_buffer.second(),
                    pal,
                    SECOND,
                    END,
                    shared,
                );
                self.keep(back);
            }
        }
    }

    /// Whether lines of a picture are to be drawn ahead: if its display is on, and not for some pictures after
    /// one of which they were drawn in vain.
    fn is_worth_it(&mut self, shown: bool) -> bool {
        if self.asked && !self.used {
            self.rest = REST;
        }
        self.rest = self.rest.saturating_sub(1);
        self.asked = shown && self.rest == 0;
        self.used = false;
        self.asked
    }

    /// A line buffer whose lines are not being drawn, if there is one.
    fn idle_line_buffer(&mut self, shared: &mut Shared) -> Option<Box<LineBuffer>>
        ensures { shared.new ≡ shared.old }
    {
        if let Some(line_buffer) = self.spare.take() {
            return Some(line_buffer);
        }
        if let Some(line_buffer) = self.other.take() {
            return Some(line_buffer);
        }
        if let Some(line_buffer) = shared.take_line_buffer() {
            return Some(line_buffer);
        }
        if let Some(line_buffer) = self.double_buffer.first().take() {
            return Some(line_buffer);
        }
        self.double_buffer.second().take()
    }

    /// Keeps a line buffer that could not be queued, if there is one.
    fn keep(&mut self, line_buffer: Option<Box<LineBuffer>>) {
        if let Some(line_buffer) = line_buffer {
            self.put_by(line_buffer);
        }
    }

    /// Keeps a line buffer that lies neither on the double buffer nor on the board.
    fn put_by(&mut self, line_buffer: Box<LineBuffer>) {
        if self.spare.is_none() {
            self.spare = Some(line_buffer);
        } else {
            self.other = Some(line_buffer);
        }
    }
}

/// Queues a line buffer for the lines of a picture from one on and below another, to be drawn from the VDP as it
/// is. It returns where the place cannot be had at once.
fn ask(
    mut line_buffer: Box<LineBuffer>,
    place: &Place,
    pal: bool,
    from: u32,
    until: u32,
    shared: &Shared,
) -> Option<Box<LineBuffer>>
    requires { from ≤ 240 }
{
    shared.begin_line_buffer(&mut line_buffer, pal, from, until);
    place.ask(line_buffer)
}
