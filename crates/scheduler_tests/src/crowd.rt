use md_outer::Gate;
use std::sync::atomic::{AtomicBool, AtomicU64, Ordering};
use std::thread::yield_now;

// How often one looks for the others before it continues alone.
const LOOKS: u32 = 1_000_000;

// A gate at which the first chip of each of so many workers waits, at its first pass of a run, until those of all
// have come. As none continues earlier, each of them passes on another thread.
#[derive(Drop)]
pub struct Crowd {
    workers: u64,
    came: AtomicU64,
    missed: AtomicBool,
}

impl Crowd {
    pub fn new(workers: u64) -> Crowd {
        Crowd {
            workers,
            came: AtomicU64::new(0),
            missed: AtomicBool::new(false),
        }
    }

    // One comes, and continues once all have come.
    fn come(&self) {
        self.came.fetch_add(1, Ordering::SeqCst);
        for _look in 0..LOOKS {
            if self.came.load(Ordering::SeqCst) >= self.workers {
                return;
            }
            yield_now();
        }
        self.missed.store(true, Ordering::SeqCst);
    }

    // Whether each came once, and none went on alone.
    pub fn met(&self) -> bool {
        self.came.load(Ordering::SeqCst) == self.workers && !self.missed.load(Ordering::SeqCst)
    }
}

impl Gate for Crowd {
    fn pass(&self, chip: u8, turn: u64) {
        if turn == 0 && u64::from(chip) < self.workers {
            self.come();
        }
    }
}
