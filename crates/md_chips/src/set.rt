ghost use Rattle.std.specs.Prelude.{◌≡◌, ◌≢◌, ◌<◌, true, false, MatchOption, length, vec_capacity};
ghost use Rattle.md_word.specs.Keys.{key_lt};
ghost use Rattle.bus_shared.specs.Board.{IsBoard};
ghost use Rattle.chip_core.specs.Chips.{IsDue};
ghost use Rattle.chip_core.specs.Staying.{LeavesAll, StaysTo, Wakes};
ghost use Rattle.md_chips.specs.Rules.{IsChip, five};
ghost use Rattle.md_chips.specs.Rules as rules;
ghost use Rattle.md_chips.specs.Code.{board_way, chip_way};
ghost use Rattle.md_chips.specs.Laws.{lawful};
ghost use Rattle.chip_core.specs.Codes.{code_of, core_of, coded};

use crate::chips::Chip;
use crate::pins::{Pins, may_wake};
use bus_shared::{Shared, pins68, pins80};
use chip_core::{ChipSet, Stay};
use md_word::clock::{BATCH, LINE, MAIN_GAP, SUB_GAP};
use md_word::{Entry, Key, Next};
use std::sync::{Arc, Wait};
use vdp_ahead::DoubleBuffer;

/// The five chips of the machine, as a set for the scheduler.
pub struct MdChips;

impl ChipSet for MdChips {
    type Chip = Chip;

    type Shared = Shared;

    type Pins = Pins;

    type Jobs = Arc<DoubleBuffer>;

    ghost rules = { rules.five };

    ghost chip_ok = { rules.IsChip };

    ghost shared_ok = { IsBoard };

    ghost code_of = { code_of board_way chip_way };

    ghost core_of = { core_of board_way chip_way };

    fn count() -> u8 {
        5
    }

    fn next(chip: &Chip) -> Next {
        match chip {
            Chip::Main(main) => main.next(),
            Chip::Sub(sub) => sub.next(),
            Chip::Renderer(renderer) => renderer.next(),
            Chip::Fm(fm) => fm.next(),
            Chip::Psg(psg) => psg.next(),
        }
    }

    #[tactic(auto, unfolding(m68k_chip::specs::States::next_of, z80_chip::specs::States::next_of))]
    fn perform(chip: &mut Chip, shared: &mut Shared) -> Entry {
        match chip {
            Chip::Main(main) => main.perform(shared),
            Chip::Sub(sub) => sub.perform(shared),
            Chip::Renderer(renderer) => renderer.perform(shared),
            Chip::Fm(fm) => fm.perform(shared),
            Chip::Psg(psg) => psg.perform(shared),
        }
    }

    #[tactic(auto, unfolding(m68k_chip::specs::States::next_of, z80_chip::specs::States::next_of))]
    fn advance(chip: &mut Chip) {
        match chip {
            Chip::Main(main) => main.advance(),
            Chip::Sub(sub) => sub.advance(),
            Chip::Renderer(renderer) => renderer.advance(),
            Chip::Fm(fm) => fm.advance(),
            Chip::Psg(psg) => psg.advance(),
        }
    }

    /// The 68000 keeps no answer, and a line is drawn straight from the board, without a view.
    #[tactic(auto, unfolding(m68k_chip::specs::States::next_of, z80_chip::specs::States::next_of))]
    fn access(chip: &mut Chip, shared: &mut Shared) -> Entry {
        match chip {
            Chip::Main(main) => main.access(shared),
            Chip::Renderer(renderer) => renderer.access(shared),
            Chip::Sub(_) | Chip::Fm(_) | Chip::Psg(_) => {
                let entry = Self::perform(chip, shared);
                Self::advance(chip);
                entry
            }
        }
    }

    /// The 68000 goes on to further accesses.
    #[tactic(auto, unfolding(m68k_chip::specs::States::next_of, z80_chip::specs::States::next_of))]
    fn access_ahead(
        chip: &mut Chip,
        number: u8,
        shared: &mut Shared,
        journal: &mut Vec<Entry>,
        end: &Key,
        sleeper: u8,
    ) -> Stay {
        match chip {
            Chip::Main(main) => main.access_ahead(shared, journal, end, sleeper),
            Chip::Sub(_) | Chip::Renderer(_) | Chip::Fm(_) | Chip::Psg(_) => {
                access_once(chip, number, shared, journal, end, sleeper)
            }
        }
    }

    fn pins(shared: &Shared, chip: u8) -> Pins {
        shared.known();
        if chip == 1 {
            Pins::Sub(pins80(shared))
        } else {
            Pins::Main(pins68(shared))
        }
    }

    #[tactic(auto, unfolding(m68k_chip::specs::States::next_of, z80_chip::specs::States::next_of))]
    fn sample(chip: &mut Chip, pins: &Pins) {
        match chip {
            Chip::Main(main) => main.sample(pins.main()),
            Chip::Sub(sub) => sub.sample(pins.sub()),
            Chip::Renderer(_) | Chip::Fm(_) | Chip::Psg(_) => {}
        }
    }

    /// The 68000 and the Z80 continue to their next access.
    #[tactic(auto, unfolding(m68k_chip::specs::States::next_of, z80_chip::specs::States::next_of))]
    fn sample_ahead(chip: &mut Chip, pins: &Pins, end: &Key) -> u64 {
        match chip {
            Chip::Main(main) => main.sample_ahead(pins.main(), end.cycle),
            Chip::Sub(sub) => sub.sample_ahead(pins.sub(), end.cycle),
            Chip::Renderer(_) | Chip::Fm(_) | Chip::Psg(_) => 1,
        }
    }

    fn writes(writer: u8, _chip: u8) -> bool {
        writer == 0 || writer == 2
    }

    /// Only the Z80 rests.
    fn rests(chip: &Chip, number: u8, shared: &Shared) -> bool {
        if number != 1 {
            return false;
        }
        match chip {
            Chip::Sub(sub) => sub.rests(&pins80(shared)),
            Chip::Main(_) | Chip::Renderer(_) | Chip::Fm(_) | Chip::Psg(_) => false,
        }
    }

    fn wakes(entry: &Entry, number: u8) -> bool {
        may_wake(entry, number)
    }

    /// Whether what the chip does after its next event is worth a hand-over: a batch of an FM chip that may be
    /// heard, which takes some microseconds, and for which nobody waits before the next one. What the others do
    /// takes less time than a hand-over, and a line to be drawn elsewhere would want a copy of the video memory.
    fn is_worth_offloading(chip: &Chip) -> bool {
        match chip {
            Chip::Fm(fm) => fm.is_worth_offloading(),
            Chip::Main(_) | Chip::Sub(_) | Chip::Renderer(_) | Chip::Psg(_) => false,
        }
    }

    /// Lines of the picture that are drawn ahead of their events.
    fn jobs(chips: &[Chip]) -> Option<Arc<DoubleBuffer>> {
        match chips.get(2) {
            Some(Chip::Renderer(renderer)) => renderer.double_buffer(),
            _ => None,
        }
    }

    fn has_job(jobs: &Arc<DoubleBuffer>) -> bool {
        jobs.look()
    }

    fn run_job<R: Wait>(rt: &R, jobs: &Arc<DoubleBuffer>) {
        jobs.draw(rt);
    }

    fn gap(chip: u8) -> u64 {
        match chip {
            0 => MAIN_GAP,
            1 => SUB_GAP,
            2 => LINE,
            _ => BATCH,
        }
    }

    ghost coded = { coded board_way chip_way rules.five rules.IsChip IsBoard };

    ghost lawful = { lawful };
}

/// The access that is due, alone.
fn access_once(
    chip: &mut Chip,
    number: u8,
    shared: &mut Shared,
    journal: &mut Vec<Entry>,
    end: &Key,
    sleeper: u8,
) -> Stay
    requires access { IsDue five IsChip IsBoard chip.old shared.old number false }
    requires below { key_lt (rules.next chip.old).key end.now ≡ true }
    requires room { length journal.old.items < vec_capacity journal.old }
    ensures stays { StaysTo five result.events number end.now
        (record { chip = chip.old; shared = shared.old; journal = journal.old.items })
        (record { chip = chip.new; shared = shared.new; journal = journal.new.items }) }
    ensures pins { sleeper ≢ number → MatchOption result.woke
        (LeavesAll five IsChip IsBoard result.events number sleeper (record { chip = chip.old; shared = shared.old; journal = journal.old.items }))
        (Wakes five IsChip IsBoard result.events number sleeper (record { chip = chip.old; shared = shared.old; journal = journal.old.items })) }
    ensures room { vec_capacity journal.new ≡ vec_capacity journal.old }
{
    let _end = end;
    let key = MdChips::next(chip).key;
    let entry = MdChips::access(chip, shared);
    journal.push_reserved(entry);
    let woke = if sleeper != number && may_wake(&entry, sleeper) {
        Some(key)
    } else {
        None
    };
    Stay { events: 1, woke }
}
