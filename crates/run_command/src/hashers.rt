ghost use Rattle.std.specs.Prelude.{◌≡◌, ℕ, List, [], ◌++◌};
ghost use Rattle.sha2.specs.Hashers.{Holds256};
ghost use Rattle.sha2.specs.Sha256.{sha256};

use crate::digests::Digests;
use sha2::{Digest, Sha256};

/// The digests of a run's outputs on their way.
#[derive(Drop)]
pub(crate) struct Hashers {
    pub frames: Sha256,
    pub samples: Sha256,
    pub journal: Sha256,
}

impl Hashers {
    /// Those of no bytes.
    pub(crate) fn new() -> Hashers
        ensures frames { Holds256 result.frames [] }
        ensures samples { Holds256 result.samples [] }
        ensures journal { Holds256 result.journal [] }
    {
        Hashers {
            frames: Sha256::new(),
            samples: Sha256::new(),
            journal: Sha256::new(),
        }
    }

    /// Takes more bytes of each output.
    pub(crate) fn update(&mut self, frames: &[u8], samples: &[u8], journal: &[u8])
        ensures frames { (bytes : List ℕ) → Holds256 self.old.frames bytes → Holds256 self.new.frames (bytes ++ frames.now) }
        ensures samples { (bytes : List ℕ) → Holds256 self.old.samples bytes → Holds256 self.new.samples (bytes ++ samples.now) }
        ensures journal { (bytes : List ℕ) → Holds256 self.old.journal bytes → Holds256 self.new.journal (bytes ++ journal.now) }
    {
        self.frames.update(frames);
        self.samples.update(samples);
        self.journal.update(journal);
    }

    /// The digests of the bytes that were taken.
    pub(crate) fn digests(self) -> Digests
        ensures frames { (bytes : List ℕ) → Holds256 self.frames bytes → result.frames ≡ sha256 bytes }
        ensures samples { (bytes : List ℕ) → Holds256 self.samples bytes → result.samples ≡ sha256 bytes }
        ensures journal { (bytes : List ℕ) → Holds256 self.journal bytes → result.journal ≡ sha256 bytes }
    {
        Digests {
            frames: self.frames.finalize(),
            samples: self.samples.finalize(),
            journal: self.journal.finalize(),
        }
    }
}
