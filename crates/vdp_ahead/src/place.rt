use crate::LineBuffer;
use std::sync::atomic::{AtomicBool, Ordering};
use std::sync::{Mutex, Wait};

/// The line buffers in a slot.
#[derive(Drop)]
struct Laid {
    /// To be drawn.
    asked: Option<Box<LineBuffer>>,
    /// Drawn.
    drawn: Option<Box<LineBuffer>>,
}

/// A slot of the double buffer: by it a line buffer reaches the worker that renders, and returns.
///
/// The thread that asks never waits: where the worker has the slot, it continues without the buffer.
#[derive(Drop)]
pub struct Place {
    laid: Mutex<Laid>,
    /// Whether a buffer to be drawn is here.
    asked: AtomicBool,
    /// Whether a drawn buffer is.
    drawn: AtomicBool,
}

impl Place {
    /// An empty slot.
    pub(crate) fn new() -> Place {
        Place {
            laid: Mutex::new(Laid {
                asked: None,
                drawn: None,
            }),
            asked: AtomicBool::new(false),
            drawn: AtomicBool::new(false),
        }
    }

    /// Whether a buffer to be drawn is here.
    #[inline]
    pub(crate) fn is_asked(&self) -> bool {
        self.asked.load(Ordering::SeqCst)
    }

    /// Offers a buffer to be drawn. `None`: it was taken; where the worker has the slot, it is returned.
    pub fn ask(&self, line_buffer: Box<LineBuffer>) -> Option<Box<LineBuffer>> {
        let Some(mut guard) = self.laid.try_lock() else {
            return Some(line_buffer);
        };
        let laid = &mut *guard;
        laid.asked = Some(line_buffer);
        self.asked.store(true, Ordering::SeqCst);
        None
    }

    /// Takes the buffer that was drawn. `None`: there is none, or the worker has the slot.
    pub fn take_drawn(&self) -> Option<Box<LineBuffer>> {
        if !self.drawn.load(Ordering::SeqCst) {
            return None;
        }
        let Some(mut guard) = self.laid.try_lock() else {
            return None;
        };
        let laid = &mut *guard;
        self.drawn.store(false, Ordering::SeqCst);
        laid.drawn.take()
    }

    /// Takes the buffer that is still to be drawn. `None`: there is none, or the worker has the slot.
    fn take_back(&self) -> Option<Box<LineBuffer>> {
        if !self.is_asked() {
            return None;
        }
        let Some(mut guard) = self.laid.try_lock() else {
            return None;
        };
        let laid = &mut *guard;
        self.asked.store(false, Ordering::SeqCst);
        laid.asked.take()
    }

    /// Takes the buffer that is here, drawn or not. `None`: there is none, or the worker has the slot.
    pub fn take(&self) -> Option<Box<LineBuffer>> {
        match self.take_drawn() {
            Some(line_buffer) => Some(line_buffer),
            None => self.take_back(),
        }
    }

    /// Takes the buffer that is to be drawn, `None` where there is none. It may wait.
    fn begin<R: Wait>(&self, rt: &R) -> Option<Box<LineBuffer>> {
        let mut guard = self.laid.lock(rt);
        let laid = &mut *guard;
        self.asked.store(false, Ordering::SeqCst);
        laid.asked.take()
    }

    /// Returns a buffer that was drawn. It may wait.
    fn end<R: Wait>(&self, rt: &R, line_buffer: Box<LineBuffer>) {
        let mut guard = self.laid.lock(rt);
        let laid = &mut *guard;
        laid.drawn = Some(line_buffer);
        self.drawn.store(true, Ordering::SeqCst);
    }

    /// Draws the lines of the buffer that is to be drawn; false: there is none.
    pub(crate) fn draw<R: Wait>(&self, rt: &R) -> bool {
        if let Some(mut line_buffer) = self.begin(rt) {
            line_buffer.draw();
            self.end(rt, line_buffer);
            return true;
        }
        false
    }
}
