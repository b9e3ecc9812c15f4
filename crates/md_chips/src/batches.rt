ghost use Rattle.std.specs.Prelude.{◌≡◌, ◌<◌, ◌≤◌, false};
ghost use Rattle.md_word.specs.Clock.{cycle_limit};
ghost use Rattle.md_chips.specs.Rules as rules;

use arrayvec::ArrayVec;
use md_word::clock::BATCH;
use md_word::{Key, Next};

/// The samples of a frame at most, in whole batches, also on PAL.
pub(crate) const MOST_SAMPLES: usize = 1_072;

/// The number of the first sample of the batch at a cycle.
pub(crate) fn first_sample(cycle: u64) -> u64
    requires { cycle < cycle_limit }
    ensures value { result ≡ rules.first_of cycle }
    ensures most { result ≤ cycle_limit }
{
    16 * (cycle / BATCH).saturating_sub(1)
}

/// A batch of a chip, which is an access.
pub(crate) fn batch_at(cycle: u64, chip: u8) -> Next
    ensures { result ≡ record { key = record { cycle = cycle; chip = chip }; sample = false } }
{
    Next {
        key: Key { cycle, chip },
        sample: false,
    }
}

/// Keeps the samples of a batch where there is room for them.
pub(crate) fn keep<T: Copy + Default>(batch: &[T; 16], samples: &mut ArrayVec<T, MOST_SAMPLES>)
    ensures { samples.new.items ≡ rules.kept samples.old.items batch.now }
{
    if samples.len() <= MOST_SAMPLES - 16 {
        for sample in batch {
            samples.push(*sample);
        }
    }
}
