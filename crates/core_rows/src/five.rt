ghost use Rattle.std.specs.Prelude.{◌≡◌, ◌==◌, cond, nat_lt, true, false, [], ◌∷◌, IfOk};
ghost use Rattle.md_word.specs.Clock as clock;

use chip_core::{ChipSet, Core};
use md_word::clock::{BATCH, LINE, MAIN_GAP, SUB_GAP};
use md_word::{Entry, Key, Next};
use std::alloc::{AllocError, Global};

// Five chips at the gaps of a Mega Drive. At power-on two of them sample, and three make accesses,
// of which one changes the pins.
pub struct Five;

#[derive(Clone, Copy, PartialEq)]
pub struct Chip {
    pub number: u8,
    pub cycle: u64,
    // whether its events are samples
    pub sample: bool,
    // the pins that it last saw
    pub seen: u64,
}

#[derive(Clone, Copy)]
pub struct Board {
    pub line: u64,
}

pub fn step_of(chip: u8) -> u64
    ensures { result ≡ cond (chip == 0) 70 (cond (chip == 1) clock.sub_gap (cond (chip == 2) clock.line clock.batch)) }
{
    match chip {
        0 => 70,
        1 => SUB_GAP,
        2 => LINE,
        _ => BATCH,
    }
}

impl ChipSet for Five {
    ghost use Rattle.std.specs.Prelude.{◌≡◌, ℕ, ◌+◌, ◌<◌, ◌≤◌, ◌==◌, ◌||◌, cond, nat_lt, true, false, refl};
    ghost use Rattle.std.proofs.Common.{arith, ap, ◌∙◌};
    ghost use Rattle.std.proofs.lemmas.Bool.Decides.{nat_tests};
    ghost use Rattle.md_word.specs.Clock as clock;
    ghost use Rattle.md_word.specs.Coding.{number, flag, by_way, both};
    ghost use Rattle.chip_core.specs.Codes.{code_of, core_of, coded as coded_by};

    type Chip = Chip;

    type Shared = Board;

    type Pins = u64;

    type Jobs = ();

    ghost rules = { record {
      count = 5;
      next = λ c. record { key = record { cycle = c.cycle; chip = c.number }; sample = c.sample };
      perform = λ c s. record {
        chip = c;
        shared = record { line = cond (c.number == 2) c.cycle s.line };
        entry = record {
          key = record { cycle = c.cycle; chip = c.number };
          kind = c.number;
          address = 0;
          value = 0;
        };
      };
      advance = λ c. record c {
        cycle = c.cycle + cond (c.number == 0) 70 (cond (c.number == 1) clock.sub_gap (cond (c.number == 2) clock.line clock.batch));
      };
      pins = λ s i. s.line;
      sample = λ c p. record c {
        cycle = c.cycle + cond (c.number == 0) 70 (cond (c.number == 1) clock.sub_gap (cond (c.number == 2) clock.line clock.batch));
        seen = p;
      };
      writes = λ i j. i == 2;
      gap = λ i. cond (i == 0) clock.main_gap (cond (i == 1) clock.sub_gap (cond (i == 2) clock.line clock.batch));
      blank = record { number = 0; cycle = 0; sample = true; seen = 0 };
    } };

    ghost chip_ok = { λ c. Unit {0} };

    ghost shared_ok = { λ s. Unit {0} };

    ghost code_of = { code_of (by_way number (λ s. s.line) (λ n. record { line = n }) (λ s. refl))
        (by_way (both number (both number (both flag number))) (λ c. (c.number, (c.cycle, (c.sample, c.seen))))
        (λ p. record { number = p.0; cycle = p.1.0; sample = p.1.1.0; seen = p.1.1.1 }) (λ c. refl)) };

    ghost core_of = { core_of (by_way number (λ s. s.line) (λ n. record { line = n }) (λ s. refl))
        (by_way (both number (both number (both flag number))) (λ c. (c.number, (c.cycle, (c.sample, c.seen))))
        (λ p. record { number = p.0; cycle = p.1.0; sample = p.1.1.0; seen = p.1.1.1 }) (λ c. refl)) };

    ghost coded = { coded_by _ _ _ _ _ };

    ghost lawful = { record {
      some = omega arith;
      few = omega arith;
      gap_some = λ i h. Prim.grind (arith, nat_tests);
      gap_few = λ i h. Prim.grind (arith, nat_tests);
      access_chip = λ c s i d. tt;
      access_shared = λ c s i d. tt;
      access_next = λ c s i d. record { number = refl; later = Prim.grind (arith, nat_tests) };
      sample_chip = λ c s i d. tt;
      sample_next = λ c s i d. record { number = refl; later = Prim.grind (arith, nat_tests) };
      entry = λ c s i d. refl;
      leaves = λ c s i j d w. ap (λ b. cond b c.cycle s.line) (ap (λ n. n == 2) d.number ∙ w);
    } };

    fn count() -> u8 {
        5
    }

    fn next(chip: &Chip) -> Next {
        Next {
            key: Key {
                cycle: chip.cycle,
                chip: chip.number,
            },
            sample: chip.sample,
        }
    }

    fn perform(chip: &mut Chip, shared: &mut Board) -> Entry {
        if chip.number == 2 {
            shared.line = chip.cycle;
        }
        Entry {
            key: Key {
                cycle: chip.cycle,
                chip: chip.number,
            },
            kind: chip.number,
            address: 0,
            value: 0,
        }
    }

    fn advance(chip: &mut Chip) {
        chip.cycle += step_of(chip.number);
    }

    fn access(chip: &mut Chip, shared: &mut Board) -> Entry {
        if chip.number == 2 {
            shared.line = chip.cycle;
        }
        let key = Key {
            cycle: chip.cycle,
            chip: chip.number,
        };
        chip.cycle += step_of(chip.number);
        Entry {
            key,
            kind: chip.number,
            address: 0,
            value: 0,
        }
    }

    fn pins(shared: &Board, _chip: u8) -> u64 {
        shared.line
    }

    fn sample(chip: &mut Chip, pins: &u64) {
        chip.cycle += step_of(chip.number);
        chip.seen = *pins;
    }

    fn writes(writer: u8, _chip: u8) -> bool {
        writer == 2
    }

    fn gap(chip: u8) -> u64 {
        match chip {
            0 => MAIN_GAP,
            1 => SUB_GAP,
            2 => LINE,
            _ => BATCH,
        }
    }
}

// The five at power-on, each bound equal to its chip's key.
pub fn power_on(alloc: Global, room: usize) -> Result<Core<Five>, AllocError>
    ensures { IfOk result (λ core. core ≡ record {
      shared = record { line = 0 };
      chips = record { number = 0; cycle = 0; sample = true; seen = 7 } ∷ record { number = 1; cycle = 0; sample = true; seen = 7 }
          ∷ record { number = 2; cycle = 0; sample = false; seen = 7 } ∷ record { number = 3; cycle = clock.batch; sample = false; seen = 7 }
          ∷ record { number = 4; cycle = clock.batch; sample = false; seen = 7 } ∷ [];
      bounds = record { cycle = 0; chip = 0 } ∷ record { cycle = 0; chip = 1 } ∷ record { cycle = 0; chip = 2 }
          ∷ record { cycle = clock.batch; chip = 3 } ∷ record { cycle = clock.batch; chip = 4 } ∷ [];
      journal = [];
      room = room;
    }) }
{
    let chips = vec![in alloc; at(0, 0), at(1, 0), at(2, 0), at(3, BATCH), at(4, BATCH)]?;
    let bounds = vec![in alloc;
        key(0, 0),
        key(1, 0),
        key(2, 0),
        key(3, BATCH),
        key(4, BATCH),
    ]?;
    let journal = Vec::with_capacity(alloc, room)?;
    Ok(Core::make(Board { line: 0 }, chips, bounds, journal))
}

// The first chip at an access of cycle 70 that it has not announced, and the second at a sample of a
// cycle that the caller names, which it has.
pub fn at_access(alloc: Global, second: u64, room: usize) -> Result<Core<Five>, AllocError>
    ensures { IfOk result (λ core. core ≡ record {
      shared = record { line = 0 };
      chips = record { number = 0; cycle = 70; sample = false; seen = 7 } ∷ record { number = 1; cycle = second; sample = true; seen = 7 }
          ∷ record { number = 2; cycle = clock.line; sample = false; seen = 7 } ∷ record { number = 3; cycle = clock.batch; sample = false; seen = 7 }
          ∷ record { number = 4; cycle = clock.batch; sample = false; seen = 7 } ∷ [];
      bounds = record { cycle = clock.main_gap; chip = 0 } ∷ record { cycle = second; chip = 1 } ∷ record { cycle = clock.line; chip = 2 }
          ∷ record { cycle = clock.batch; chip = 3 } ∷ record { cycle = clock.batch; chip = 4 } ∷ [];
      journal = [];
      room = room;
    }) }
{
    let access = Chip {
        number: 0,
        cycle: 70,
        sample: false,
        seen: 7,
    };
    let chips = vec![in alloc;
        access,
        at(1, second),
        at(2, LINE),
        at(3, BATCH),
        at(4, BATCH),
    ]?;
    let bounds = vec![in alloc;
        key(0, MAIN_GAP),
        key(1, second),
        key(2, LINE),
        key(3, BATCH),
        key(4, BATCH),
    ]?;
    let journal = Vec::with_capacity(alloc, room)?;
    Ok(Core::make(Board { line: 0 }, chips, bounds, journal))
}

pub fn at(number: u8, cycle: u64) -> Chip
    ensures { result ≡ record { number = number; cycle = cycle; sample = nat_lt number 2; seen = 7 } }
{
    Chip {
        number,
        cycle,
        sample: number < 2,
        seen: 7,
    }
}

pub fn key(chip: u8, cycle: u64) -> Key
    ensures { result ≡ record { cycle = cycle; chip = chip } }
{
    Key { cycle, chip }
}
