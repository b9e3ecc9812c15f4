use crate::Place;
use std::sync::Wait;
use std::sync::atomic::{AtomicBool, Ordering};

/// The double buffer by which line buffers reach the worker that renders, and return: the lines of the one may
/// be shown while those of the other are drawn.
#[derive(Drop)]
pub struct DoubleBuffer {
    first: Place,
    second: Place,
    /// Whether a worker has looked for a buffer to draw.
    watched: AtomicBool,
}

impl DoubleBuffer {
    /// A double buffer without a buffer.
    pub fn new() -> DoubleBuffer {
        DoubleBuffer {
            first: Place::new(),
            second: Place::new(),
            watched: AtomicBool::new(false),
        }
    }

    /// The slot of the buffer that is drawn first.
    #[inline]
    pub fn first(&self) -> &Place {
        &self.first
    }

    /// The slot of the other one.
    #[inline]
    pub fn second(&self) -> &Place {
        &self.second
    }

    /// Whether a buffer to be drawn is here, as a worker asks.
    #[inline]
    pub fn look(&self) -> bool {
        if !self.is_watched() {
            self.watched.store(true, Ordering::SeqCst);
        }
        self.first.is_asked() || self.second.is_asked()
    }

    /// Whether a worker has ever looked for a buffer to draw.
    #[inline]
    pub fn is_watched(&self) -> bool {
        self.watched.load(Ordering::SeqCst)
    }

    /// Draws the lines of the first buffer that is to be drawn, if there is one. It may wait.
    pub fn draw<R: Wait>(&self, rt: &R) {
        if !self.first.draw(rt) {
            self.second.draw(rt);
        }
    }
}
