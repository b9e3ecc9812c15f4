ghost use Rattle.std.specs.Prelude.{◌≡◌, ◌<◌};
ghost use Rattle.sound_writes.specs.Keys as meaning;

use md_word::Key;
use md_word::clock::{BATCH, MAIN_GAP, SUB_GAP};

/// The earliest cycles at which the next write of each processor can be, after those that were
/// looked at.
#[derive(Clone, Copy)]
pub struct Earliest {
    /// The 68000, chip 0.
    pub main: u64,
    /// The Z80, chip 1.
    pub sub: u64,
}

impl Earliest {
    /// Where no write was looked at: the cycle of the last batch before a cycle.
    pub fn following_batch(at: u64) -> Earliest
        ensures { result ≡ meaning.following_batch at }
    {
        let batch = at.saturating_sub(1) / BATCH * BATCH;
        Earliest {
            main: batch,
            sub: batch,
        }
    }

    /// Whether the next write can have this key, below a cycle.
    pub fn fits(&self, key: &Key, at: u64) -> bool
        ensures { result ≡ meaning.fits at self.now key.now }
    {
        let from = if key.chip == 0 { self.main } else { self.sub };
        key.chip < 2 && from <= key.cycle && key.cycle < at
    }

    /// After a write with this key.
    pub fn after(&self, key: &Key) -> Earliest
        ensures { result ≡ meaning.after key.now self.now }
    {
        if key.chip == 0 {
            Earliest {
                main: key.cycle.saturating_add(MAIN_GAP),
                sub: self.sub.max(key.cycle),
            }
        } else {
            Earliest {
                main: self.main.max(key.cycle.saturating_add(1)),
                sub: key.cycle.saturating_add(SUB_GAP),
            }
        }
    }
}

/// Whether a write with this key is its processor's gap before the next event of that processor,
/// at least: the 68000's next is at `main`, the Z80's at `sub`.
pub fn is_before_next(key: &Key, main: u64, sub: u64) -> bool
    ensures { result ≡ meaning.is_before_next main sub key.now }
{
    let (next, gap) = if key.chip == 0 {
        (main, MAIN_GAP)
    } else {
        (sub, SUB_GAP)
    };
    gap <= next && key.cycle <= next - gap
}
