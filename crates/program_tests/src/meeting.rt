use md_outer::Gate;
use std::sync::atomic::{AtomicBool, AtomicU64, Ordering};
use std::thread::yield_now;

/// How often a worker looks for the other before it passes alone.
const LOOKS: u32 = 1_000_000;

/// A gate at which the first two chips wait for one another at the first pass of each segment.
#[derive(Drop)]
pub(crate) struct Meeting {
    first: AtomicU64,
    second: AtomicU64,
    missed: AtomicBool,
}

impl Meeting {
    pub(crate) fn new() -> Meeting {
        Meeting {
            first: AtomicU64::new(0),
            second: AtomicU64::new(0),
            missed: AtomicBool::new(false),
        }
    }

    /// Comes in, and waits until the other has come in as often.
    fn meet(&self, mine: &AtomicU64, other: &AtomicU64) {
        let before = mine.fetch_add(1, Ordering::SeqCst);
        for _look in 0..LOOKS {
            if other.load(Ordering::SeqCst) > before {
                return;
            }
            yield_now();
        }
        self.missed.store(true, Ordering::SeqCst);
    }

    /// Whether both came in so often, and none passed alone.
    pub(crate) fn met(&self, times: u64) -> bool {
        let first = self.first.load(Ordering::SeqCst);
        let second = self.second.load(Ordering::SeqCst);
        first == times && second == times && !self.missed.load(Ordering::SeqCst)
    }
}

/// A gate at which the first chip of each of so many workers waits, at its first pass of each segment, until those
/// of all have come: so each of them passes on another thread.
#[derive(Drop)]
pub(crate) struct Crowd {
    workers: u64,
    came: AtomicU64,
    missed: AtomicBool,
}

impl Crowd {
    pub(crate) fn new(workers: u64) -> Crowd {
        Crowd {
            workers,
            came: AtomicU64::new(0),
            missed: AtomicBool::new(false),
        }
    }

    /// Comes in, and waits until all have come in as often.
    fn come(&self) {
        let before = self.came.fetch_add(1, Ordering::SeqCst);
        let earlier = before.checked_div(self.workers).unwrap_or(0);
        let all = earlier.saturating_add(1).saturating_mul(self.workers);
        for _look in 0..LOOKS {
            if self.came.load(Ordering::SeqCst) >= all {
                return;
            }
            yield_now();
        }
        self.missed.store(true, Ordering::SeqCst);
    }

    /// Whether each came in so often, and none passed alone.
    pub(crate) fn met(&self, times: u64) -> bool {
        self.came.load(Ordering::SeqCst) == self.workers.saturating_mul(times)
            && !self.missed.load(Ordering::SeqCst)
    }
}

impl Gate for Crowd {
    fn pass(&self, chip: u8, turn: u64) {
        if turn == 0 && u64::from(chip) < self.workers {
            self.come();
        }
    }
}

impl Gate for Meeting {
    fn pass(&self, chip: u8, turn: u64) {
        match (chip, turn) {
            (0, 0) => self.meet(&self.first, &self.second),
            (1, 0) => self.meet(&self.second, &self.first),
            _ => {}
        }
    }
}
