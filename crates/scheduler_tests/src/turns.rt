use md_outer::Gate;
use std::sync::atomic::{AtomicBool, AtomicU64, Ordering};

// A gate that counts the passes of each of five chips, and looks at the number that each pass has.
#[derive(Drop)]
pub struct Turns {
    passes: [AtomicU64; 5],
    wrong: AtomicBool,
}

impl Turns {
    pub fn new() -> Turns {
        Turns {
            passes: [
                AtomicU64::new(0),
                AtomicU64::new(0),
                AtomicU64::new(0),
                AtomicU64::new(0),
                AtomicU64::new(0),
            ],
            wrong: AtomicBool::new(false),
        }
    }

    // Whether the chip passed at least so often.
    pub fn passed(&self, chip: usize, least: u64) -> bool {
        match self.passes.get(chip) {
            Some(passes) => passes.load(Ordering::SeqCst) >= least,
            None => false,
        }
    }

    // Whether each pass had the number of its chip's earlier ones.
    pub fn are_right(&self) -> bool {
        !self.wrong.load(Ordering::SeqCst)
    }
}

impl Gate for Turns {
    fn pass(&self, chip: u8, turn: u64) {
        if let Some(passes) = self.passes.get(usize::from(chip)) {
            if passes.fetch_add(1, Ordering::SeqCst) == turn {
                return;
            }
        }
        self.wrong.store(true, Ordering::SeqCst);
    }
}
