ghost use Rattle.std.specs.Prelude.{◌≡◌, ◌≢◌, ℕ, ◌<◌, ◌≤◌, true, false, List, MatchOption, length, vec_capacity};
ghost use Rattle.md_word.specs.Clock.{cycle_limit};
ghost use Rattle.md_word.specs.Keys.{key_lt};

use crate::Stay;
use md_word::{Entry, Key, Next};
use std::sync::Wait;

/// Up to five chips, numbered from 0, that share a state.
///
/// Each chip waits at an event to come: an access to the shared state, or a sample of its input
/// pins. An event has a key, its cycle of the master clock and the chip's number.
///
/// What moves chips between threads asks that the set and its types may go there.
pub trait ChipSet {
    ghost use Rattle.chip_core.specs.Chips.{IsDue, IsPerformed, Lawful, LeavesPins, Rests, Rules, SamplesBelow, SamplesTo, WritesNone};
    ghost use Rattle.chip_core.specs.Cores.{CoreValue, IsCoded};
    ghost use Rattle.chip_core.specs.Staying.{LeavesAll, StaysTo, Wakes};

    /// A chip, at its next event.
    type Chip: Drop;

    /// What the chips share.
    type Shared: Drop;

    /// The input pins of one chip.
    type Pins: Drop;

    /// Where a chip queues speculative jobs: work that it asks for ahead of its events, and goes without where nobody does
    /// it. What contracts see depends on none.
    type Jobs: Drop;

    /// What the calls compute.
    ghost rules: { Rules Self.Chip Self.Shared Self.Pins };

    /// The chips that can occur, of which alone the laws speak.
    ghost chip_ok: { Self.Chip → Type 0 };

    /// The shared states that can occur.
    ghost shared_ok: { Self.Shared → Type 0 };

    /// How numbers spell a core whose journal is empty, and how they are read back.
    ghost code_of: { CoreValue Self.Chip Self.Shared → List ℕ };

    ghost core_of: { List ℕ → CoreValue Self.Chip Self.Shared };

    /// How many chips there are: 1 to 5.
    fn count() -> u8
        ensures { result ≡ rules.count };

    /// The key and the kind of the chip's next event.
    fn next(chip: &Self::Chip) -> Next
        ensures value { result ≡ rules.next chip.now }
        ensures ok { chip_ok chip.now };

    /// The part of an access that needs the shared state.
    ///
    /// The chip's private work is then due: `advance` is its next call.
    fn perform(chip: &mut Self::Chip, shared: &mut Self::Shared) -> Entry
        requires access { (rules.next chip.old).sample ≡ false }
        requires cycle { (rules.next chip.old).key.cycle < cycle_limit }
        ensures chip { chip.new ≡ (rules.perform chip.old shared.old).chip }
        ensures shared { shared.new ≡ (rules.perform chip.old shared.old).shared }
        ensures entry { result ≡ (rules.perform chip.old shared.old).entry };

    /// The private work after an access, up to the chip's next event.
    fn advance(chip: &mut Self::Chip)
        requires { IsPerformed rules chip_ok shared_ok chip.old }
        ensures { chip.new ≡ rules.advance chip.old };

    /// An access and the private work after it, in one step: `perform` and `advance`, or what does
    /// the same.
    fn access(chip: &mut Self::Chip, shared: &mut Self::Shared) -> Entry
        requires { IsDue rules chip_ok shared_ok chip.old shared.old (rules.next chip.old).key.chip false }
        ensures chip { chip.new ≡ rules.advance (rules.perform chip.old shared.old).chip }
        ensures shared { shared.new ≡ (rules.perform chip.old shared.old).shared }
        ensures entry { result ≡ (rules.perform chip.old shared.old).entry }
    {
        let entry = Self::perform(chip, shared);
        Self::advance(chip);
        entry
    }

    /// The access that is due and, if the chip makes them at once, events after it while the other chips make
    /// none: each comes before the key `end`, and samples are of the pins as they then are. It stops behind an
    /// access that may have changed the pins of another chip, the sleeper; where none sleeps, that is the
    /// chip's own number.
    fn access_ahead(
        chip: &mut Self::Chip,
        number: u8,
        shared: &mut Self::Shared,
        journal: &mut Vec<Entry>,
        end: &Key,
        sleeper: u8,
    ) -> Stay
        requires access { IsDue rules chip_ok shared_ok chip.old shared.old number false }
        requires below { key_lt (rules.next chip.old).key end.now ≡ true }
        requires time { end.now.cycle ≤ cycle_limit }
        requires room { length journal.old.items < vec_capacity journal.old }
        ensures stays { StaysTo rules result.events number end.now
            (record { chip = chip.old; shared = shared.old; journal = journal.old.items })
            (record { chip = chip.new; shared = shared.new; journal = journal.new.items }) }
        ensures pins { sleeper ≢ number → MatchOption result.woke
            (LeavesAll rules chip_ok shared_ok result.events number sleeper (record { chip = chip.old; shared = shared.old; journal = journal.old.items }))
            (Wakes rules chip_ok shared_ok result.events number sleeper (record { chip = chip.old; shared = shared.old; journal = journal.old.items })) }
        ensures room { vec_capacity journal.new ≡ vec_capacity journal.old }
    {
        let key = Self::next(chip).key;
        let entry = Self::access(chip, shared);
        journal.push_reserved(entry);
        let woke = if sleeper != number && Self::wakes(&entry, sleeper) {
            Some(key)
        } else {
            None
        };
        Stay { events: 1, woke }
    }

    /// The input pins of the chip of this number.
    fn pins(shared: &Self::Shared, chip: u8) -> Self::Pins
        ensures value { result ≡ rules.pins shared.now chip }
        ensures ok { shared_ok shared.now };

    /// A sample of the input pins, and the private work up to the chip's next event.
    fn sample(chip: &mut Self::Chip, pins: &Self::Pins)
        requires sample { (rules.next chip.old).sample ≡ true }
        requires cycle { (rules.next chip.old).key.cycle < cycle_limit }
        ensures { chip.new ≡ rules.sample chip.old pins.now };

    /// The sample that is due and, if the chip knows what they result in, samples of the same pins after
    /// it, each before the key `end`; answers how many that were.
    fn sample_ahead(chip: &mut Self::Chip, pins: &Self::Pins, end: &Key) -> u64
        requires sample { SamplesBelow rules end.now chip.old }
        requires cycle { (rules.next chip.old).key.cycle < cycle_limit }
        requires time { end.now.cycle ≤ cycle_limit }
        ensures { SamplesTo rules result end.now pins.now chip.old chip.new }
    {
        Self::sample(chip, pins);
        1
    }

    /// Whether accesses of the one chip can change the input pins of the other.
    fn writes(writer: u8, chip: u8) -> bool
        ensures { result ≡ rules.writes writer chip };

    /// Whether the chip, of this number, rests: it only samples its pins as they are, however often, and
    /// makes no access. Only a chip whose accesses change no pins may rest.
    fn rests(chip: &Self::Chip, number: u8, shared: &Self::Shared) -> bool
        ensures rests { result ≡ true → Rests rules (rules.pins shared.now number) chip.now }
        ensures apart { result ≡ true → WritesNone rules number }
    {
        false
    }

    /// Whether an access of another chip, by its entry, may have changed the pins of the chip of this
    /// number.
    fn wakes(entry: &Entry, number: u8) -> bool
        ensures { result ≡ false → LeavesPins rules chip_ok shared_ok entry.now number }
    {
        true
    }

    /// Whether the private work after the chip's next event is worth being handed to another thread, where
    /// there is one: how several workers share their work depends on it, and nothing else.
    fn is_worth_offloading(_chip: &Self::Chip) -> bool {
        true
    }

    /// The place where these chips queue their jobs; none where no chip does.
    fn jobs(_chips: &[Self::Chip]) -> Option<Self::Jobs> {
        None
    }

    /// Whether a job is queued there that nobody has begun. It is asked again and again, so it must be cheap.
    fn has_job(_jobs: &Self::Jobs) -> bool {
        false
    }

    /// Runs a job, if one is queued there that nobody has begun.
    fn run_job<R: Wait>(_rt: &R, _jobs: &Self::Jobs) {}

    /// The least number of cycles between two events of the chip: 1 to 2^50.
    fn gap(chip: u8) -> u64
        requires { chip < rules.count }
        ensures { result ≡ rules.gap chip };

    ghost coded: { IsCoded rules chip_ok shared_ok code_of core_of };

    ghost lawful: { Lawful rules chip_ok shared_ok };
}
