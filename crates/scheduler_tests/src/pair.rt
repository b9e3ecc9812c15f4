ghost use Rattle.std.specs.Prelude.{◌≡◌, [], ◌∷◌, IfOk};

use crate::job::Job;
use crate::meeting::Meeting;
use chip_core::{ChipSet, Core};
use md_word::{Entry, Key, Next};
use std::alloc::{AllocError, Global};
use std::marker::Model;
use std::sync::{Arc, Wait};

// Two chips with an event every 10 cycles, whose private work waits for one another, for so many events.
pub struct Pair;

#[derive(Drop)]
pub struct Chip {
    number: u8,
    cycle: u64,
    // whether its events are samples
    sample: bool,
    meeting: Arc<Meeting>,
    times: u64,
    job: Option<Arc<Job>>,
}

impl Model for Chip {
    ghost use Rattle.scheduler_tests.specs.Pairs.{PairChip};

    ghost Value = { PairChip };

    ghost view = { λ c. record { number = c.number; cycle = c.cycle; sample = c.sample } };
}

impl Chip {
    fn key(&self) -> Key
        ensures { result ≡ record { cycle = self.now.cycle; chip = self.now.number } }
    {
        Key {
            cycle: self.cycle,
            chip: self.number,
        }
    }
}

impl ChipSet for Pair {
    ghost use Rattle.std.specs.Prelude.{◌≡◌, ℕ, ◌+◌, false, refl};
    ghost use Rattle.std.proofs.Common.{arith};
    ghost use Rattle.md_word.specs.Coding.{number, flag, by_way, both};
    ghost use Rattle.chip_core.specs.Codes.{code_of, core_of, coded as coded_by};

    type Chip = Chip;

    type Shared = u64;

    type Pins = u64;

    type Jobs = Arc<Job>;

    ghost rules = { record {
      count = 2;
      next = λ c. record { key = record { cycle = c.cycle; chip = c.number }; sample = c.sample };
      perform = λ c s. record {
        chip = c;
        shared = s;
        entry = record { key = record { cycle = c.cycle; chip = c.number }; kind = 0; address = 0; value = 0 };
      };
      advance = λ c. record c { cycle = c.cycle + 10 };
      pins = λ s i. s;
      sample = λ c p. record c { cycle = c.cycle + 10 };
      writes = λ i j. false;
      gap = λ i. 10;
      blank = record { number = 0; cycle = 0; sample = false };
    } };

    ghost chip_ok = { λ c. Unit {0} };

    ghost shared_ok = { λ s. Unit {0} };

    ghost code_of = { code_of number (by_way (both number (both number flag)) (λ c. (c.number, (c.cycle, c.sample)))
        (λ p. record { number = p.0; cycle = p.1.0; sample = p.1.1 }) (λ c. refl)) };

    ghost core_of = { core_of number (by_way (both number (both number flag)) (λ c. (c.number, (c.cycle, c.sample)))
        (λ p. record { number = p.0; cycle = p.1.0; sample = p.1.1 }) (λ c. refl)) };

    ghost coded = { coded_by _ _ _ _ _ };

    ghost lawful = { record {
      some = omega arith;
      few = omega arith;
      gap_some = λ i h. omega arith;
      gap_few = λ i h. omega arith;
      access_chip = λ c s i d. tt;
      access_shared = λ c s i d. tt;
      access_next = λ c s i d. record { number = refl; later = omega arith };
      sample_chip = λ c s i d. tt;
      sample_next = λ c s i d. record { number = refl; later = omega arith };
      entry = λ c s i d. refl;
      leaves = λ c s i j d w. refl;
    } };

    fn count() -> u8 {
        2
    }

    fn next(chip: &Chip) -> Next {
        Next {
            key: chip.key(),
            sample: chip.sample,
        }
    }

    fn perform(chip: &mut Chip, _shared: &mut u64) -> Entry {
        Entry {
            key: chip.key(),
            kind: 0,
            address: 0,
            value: 0,
        }
    }

    fn advance(chip: &mut Chip) {
        chip.meeting.come_early(chip.number, chip.times);
        chip.cycle += 10;
    }

    fn pins(shared: &u64, _chip: u8) -> u64 {
        *shared
    }

    fn sample(chip: &mut Chip, _pins: &u64) {
        chip.meeting.come_early(chip.number, chip.times);
        chip.cycle += 10;
    }

    fn writes(_writer: u8, _chip: u8) -> bool {
        false
    }

    fn jobs(chips: &[Chip]) -> Option<Arc<Job>> {
        match chips {
            [first, ..] => match &first.job {
                Some(job) => Arc::try_clone(job).ok(),
                None => None,
            },
            [] => None,
        }
    }

    fn has_job(job: &Arc<Job>) -> bool {
        job.lies()
    }

    fn run_job<R: Wait>(_rt: &R, job: &Arc<Job>) {
        job.run();
    }

    fn gap(_chip: u8) -> u64 {
        10
    }
}

fn at_start(
    number: u8,
    sample: bool,
    meeting: Arc<Meeting>,
    times: u64,
    job: Option<Arc<Job>>,
) -> Chip
    ensures { result ≡ record { number = number; cycle = 0; sample = sample } }
{
    Chip {
        number,
        cycle: 0,
        sample,
        meeting,
        times,
        job,
    }
}

// The two at cycle 0, at accesses or at samples, each bound equal to its chip's key, with a job or none.
pub fn power_on(
    alloc: Global,
    sample: bool,
    meeting: &Arc<Meeting>,
    times: u64,
    job: Option<Arc<Job>>,
    room: usize,
) -> Result<Core<Pair>, AllocError>
    ensures { IfOk result (λ core. core ≡ record {
      shared = 0;
      chips = record { number = 0; cycle = 0; sample = sample } ∷ record { number = 1; cycle = 0; sample = sample } ∷ [];
      bounds = record { cycle = 0; chip = 0 } ∷ record { cycle = 0; chip = 1 } ∷ [];
      journal = [];
      room = room;
    }) }
{
    let first = at_start(0, sample, Arc::try_clone(meeting)?, times, job);
    let second = at_start(1, sample, Arc::try_clone(meeting)?, times, None);
    let chips = vec![in alloc; first, second]?;
    let bounds = vec![in alloc; Key { cycle: 0, chip: 0 }, Key { cycle: 0, chip: 1 }]?;
    let journal = Vec::with_capacity(alloc, room)?;
    Ok(Core::make(0, chips, bounds, journal))
}
