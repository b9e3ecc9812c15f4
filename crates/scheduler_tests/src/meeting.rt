use md_outer::Gate;
use std::sync::atomic::{AtomicBool, AtomicU64, Ordering};
use std::thread::yield_now;

// How often one of two looks for the other before it continues alone.
const LOOKS: u32 = 1_000_000;

// A place where two come again and again, and each time wait for one another.
#[derive(Drop)]
pub struct Meeting {
    first: AtomicU64,
    second: AtomicU64,
    missed: AtomicBool,
}

impl Meeting {
    pub fn new() -> Meeting {
        Meeting {
            first: AtomicU64::new(0),
            second: AtomicU64::new(0),
            missed: AtomicBool::new(false),
        }
    }

    // The first or the second comes, and continues once the other has come as often.
    pub fn come(&self, number: u8) {
        if number == 0 {
            self.wait(self.first.fetch_add(1, Ordering::SeqCst), &self.second);
        } else {
            self.wait(self.second.fetch_add(1, Ordering::SeqCst), &self.first);
        }
    }

    fn wait(&self, before: u64, other: &AtomicU64) {
        for _look in 0..LOOKS {
            if other.load(Ordering::SeqCst) > before {
                return;
            }
            yield_now();
        }
        self.missed.store(true, Ordering::SeqCst);
    }

    // One that came less often than so many times comes; others pass.
    pub fn come_early(&self, number: u8, times: u64) {
        let mine = if number == 0 {
            &self.first
        } else {
            &self.second
        };
        if mine.load(Ordering::SeqCst) < times {
            self.come(number);
        }
    }

    // Whether both came so often, and none went on alone.
    pub fn met(&self, times: u64) -> bool {
        let first = self.first.load(Ordering::SeqCst);
        let second = self.second.load(Ordering::SeqCst);
        first == times && second == times && !self.missed.load(Ordering::SeqCst)
    }
}

impl Gate for Meeting {
    fn pass(&self, chip: u8, turn: u64) {
        if turn == 0 && chip < 2 {
            self.come(chip);
        }
    }
}
