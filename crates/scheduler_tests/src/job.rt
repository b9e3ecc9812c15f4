use md_outer::Gate;
use std::sync::atomic::{AtomicBool, AtomicU64, Ordering};
use std::thread::yield_now;

// How often the one who waits for a job looks whether it was run before it continues.
const LOOKS: u32 = 1_000_000;

// A job that counts its runs, and a gate at which the second chip's first turn waits for one.
#[derive(Drop)]
pub struct Job {
    begun: AtomicBool,
    runs: AtomicU64,
}

impl Job {
    pub fn new() -> Job {
        Job {
            begun: AtomicBool::new(false),
            runs: AtomicU64::new(0),
        }
    }

    // Whether nobody has begun it.
    pub fn lies(&self) -> bool {
        !self.begun.load(Ordering::SeqCst)
    }

    pub fn run(&self) {
        self.begun.store(true, Ordering::SeqCst);
        self.runs.fetch_add(1, Ordering::SeqCst);
    }

    pub fn was_run(&self, times: u64) -> bool {
        self.runs.load(Ordering::SeqCst) == times
    }
}

impl Gate for Job {
    fn pass(&self, chip: u8, turn: u64) {
        if turn != 0 || chip != 1 {
            return;
        }
        for _look in 0..LOOKS {
            if !self.was_run(0) {
                return;
            }
            yield_now();
        }
    }
}
