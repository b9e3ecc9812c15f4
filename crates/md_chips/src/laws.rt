//! Laws of the five chips, as calls that do nothing and stand for what they ensure.

ghost use Rattle.std.specs.Prelude.{◌≡◌, ℕ, Bool, ◌+◌, ◌-◌, ◌*◌, ◌/◌, ◌<◌, ◌≤◌, ◌++◌, List, length};
ghost use Rattle.md_word.specs.Clock as clock;
ghost use Rattle.md_word.specs.Clock.{last_cycle};
ghost use Rattle.md_word.specs.Region.{frame_cycles};
ghost use Rattle.md_word.specs.declared.event.Entry.{Entry};
ghost use Rattle.chip_core.specs.Cores.{CoreValue, IsCore, machine_of};
ghost use Rattle.chip_core.specs.Limits.{all_moves_left, events_within};
ghost use Rattle.chip_core.specs.Machines as machines;
ghost use Rattle.bus_shared.specs.Board.{Board, IsBoard};
ghost use Rattle.md_pads.specs.Recording.{Recorded};
ghost use Rattle.md_chips.specs.Console.{AllBelow, Console, IsQuiet, IsRunTo, journal, key_in, media_after, moved, mover, power_on, ran};
ghost use Rattle.md_chips.specs.Halves.{LeavesChip};
ghost use Rattle.md_chips.specs.Owners.{HasOneOwner};
ghost use Rattle.md_chips.specs.Pads.{ShowsPads};
ghost use Rattle.md_chips.specs.Refinement.{console_of};
ghost use Rattle.md_chips.specs.Rules.{IsChip, five};
ghost use Rattle.md_chips.specs.ValidParts.{HasValidParts};
ghost use Rattle.md_chips.specs.Starts.{IsStart, Start, batches_below, frames_below};
ghost use Rattle.md_chips.specs.declared.chips.Chip.{Chip};
ghost use Rattle.md_chips.specs.Media as outputs;
ghost use Rattle.md_chips.specs.Machines.{kept_in};
ghost use Rattle.md_chips.specs.Media.{Media, no_media};
ghost use Rattle.md_chips.specs.Regions.{most_entries, most_pairs};

use crate::set::MdChips;
use chip_core::laws;
use rom_header::Cart;

/// No next event of the five chips is before that of the chip that moves.
pub fn mover_is_first()
    ensures { (m : Console) (i : ℕ) → i < 5 → (key_in m (mover m)).cycle ≤ (key_in m i).cycle }
{}

/// The first moves of a machine, and after them moves of the machine to which they lead, are together
/// its moves. They lead to the same machine, and the entries, the frames and the samples of the first are
/// followed by those of the later.
pub fn moves_added()
    ensures machine { (m : Console) (first later : ℕ) → ran m (first + later) ≡ ran (ran m first) later }
    ensures entries { (m : Console) (first later : ℕ) → journal m (first + later) ≡ journal m first ++ journal (ran m first) later }
    ensures output { (m : Console) (first later : ℕ)
        → media_after m (first + later) ≡ outputs.joined (media_after m first) (media_after (ran m first) later) }
{}

/// There are no more entries than moves.
pub fn few_entries()
    ensures { (m : Console) (moves : ℕ) → length (journal m moves) ≤ moves }
{}

/// A run that continues from where another ended is one run, with the entries, frames and samples of the
/// one followed by those of the other.
pub fn joined()
    ensures { (m w z : Console) (s t : ℕ) (entries later_entries : List Entry) (output later_output : Media) → s ≤ t
        → IsRunTo m s w entries output → IsRunTo w t z later_entries later_output
        → IsRunTo m t z (entries ++ later_entries) (outputs.joined output later_output) }
{}

/// Two runs from one machine to one cycle are equal: the machine, the entries, the frames and the
/// samples.
pub fn one_run()
    ensures { (m w z : Console) (end : ℕ) (first second : List Entry) (output other : Media)
        → IsRunTo m end w first output → IsRunTo m end z second other
        → (w ≡ z) × (first ≡ second) × (output ≡ other) }
{}

/// Power-on is a start, at cycle 0.
pub fn power_on_is_start()
    ensures { (cart : List ℕ) (recording : Recorded) (pal : Bool) → IsStart (record { at = 0; console = power_on cart recording pal }) }
{}

/// Where a run from a start ends, another may start.
pub fn run_ends_at_start()
    ensures { (start : Start) (z : Console) (end : ℕ) (entries : List Entry) (output : Media) → IsStart start → start.at ≤ end
        → IsRunTo start.console end z entries output → IsStart (record { at = end; console = z }) }
{}

/// A run from a start to a cycle makes 16 samples of each sound chip for each multiple of 16,128
/// cycles, from the first on, that lies between the two and below the end.
pub fn samples_counted()
    ensures sides { (start : Start) (z : Console) (end : ℕ) (entries : List Entry) (output : Media) → IsStart start
        → IsRunTo start.console end z entries output → length output.sides ≡ 16 * (batches_below end - batches_below start.at) }
    ensures levels { (start : Start) (z : Console) (end : ℕ) (entries : List Entry) (output : Media) → IsStart start
        → IsRunTo start.console end z entries output → length output.levels ≡ 16 * (batches_below end - batches_below start.at) }
{}

/// A run from a start to a cycle makes a frame for each start of the line after a picture that lies between
/// the two and below the end. For frame n that is cycle 766,080 + 896,040 n, or on PAL 820,800 + 1,070,460 n.
pub fn frames_counted()
    ensures { (start : Start) (z : Console) (end : ℕ) (entries : List Entry) (output : Media) → IsStart start
        → IsRunTo start.console end z entries output → length output.frames ≡ frames_below start.console.pal end - frames_below start.console.pal start.at }
{}

/// How many events a list of enabled events of the five chips has at most, over so many cycles.
pub fn few_in_list()
    ensures { (span : ℕ) → events_within five span ≤ 2 * (span / clock.main_gap + span / clock.sub_gap + span / clock.line + 2 * (span / clock.batch) + 10) }
{}

/// From power-on, after any number of events, the pads show no button before the line after the picture
/// of the first frame has begun, line 224 or on PAL 240. From then on they show the recording's words of the
/// frame of which that line began last.
pub fn pads_are_recorded()
    ensures { (cart : List ℕ) (recording : Recorded) (pal : Bool) (moves : ℕ) → ShowsPads pal recording (ran (power_on cart recording pal) moves) }
{}

/// From power-on, after events below a cycle of at most the cycle limit, the Z80's RAM and bank register have one
/// owner: the Z80 or the bus.
pub fn one_owner(cart: &Cart)
    ensures { (recording : Recorded) (pal : Bool) (end n : ℕ) → end ≤ clock.cycle_limit → AllBelow (power_on cart.now recording pal) end n
        → HasOneOwner (ran (power_on cart.now recording pal) n) }
{
    cart.bytes();
    laws::stages::<MdChips>();
}

/// Of an access the half under the lock leaves each field of the chip, but for what its request hands over; so all
/// private work is done by the other half. Both together, or a sample, are the move of the machine as it is defined.
pub fn halves_are_moves()
    ensures leaves { (chip : Chip) (board : Board) → LeavesChip chip (five.perform chip board).chip }
    ensures moved { (m : machines.Machine Chip Board) (i : ℕ) → machines.IsValid five IsChip IsBoard m → i < 5
        → console_of (machines.move five m i) ≡ moved (console_of m) i }
{}

/// At power-on with a cartridge they are.
pub fn parts_start_valid(cart: &Cart)
    ensures { (recording : Recorded) (pal : Bool) → HasValidParts (power_on cart.now recording pal) }
{
    cart.bytes();
}

/// They stay so after any events below a cycle of at most the cycle limit.
pub fn parts_stay_valid()
    ensures { (m : Console) (end n : ℕ) → end ≤ clock.cycle_limit → HasValidParts m → AllBelow m end n → HasValidParts (ran m n) }
{
    laws::stages::<MdChips>();
}

/// A run leaves the region: that of the drawing half of the VDP, and that of the board.
pub fn region_stays()
    ensures { (m : Console) (moves : ℕ) → ((ran m moves).pal ≡ m.pal) × ((ran m moves).shared.vdp.pal ≡ m.shared.vdp.pal) }
{}

/// Where no event was before a cycle, none does after any events below a cycle of at most the cycle limit.
pub fn quiet_stays()
    ensures { (m : Console) (at end n : ℕ) → end ≤ clock.cycle_limit → HasValidParts m → IsQuiet at m → AllBelow m end n → IsQuiet at (ran m n) }
{
    laws::stages::<MdChips>();
    laws::limits::<MdChips>();
}

/// What a run of the five chips over a segment is, whoever made it.
pub fn know_segments()
    ensures few { (v : CoreValue Chip Board) (from to : ℕ) → machines.IsQuiet five (machine_of five v) from
        → to ≤ from + frame_cycles (console_of (machine_of five v)).pal → to ≤ last_cycle
        → all_moves_left five to (machine_of five v) ≤ most_entries (console_of (machine_of five v)).pal }
    ensures run { (v w : CoreValue Chip Board) (from to : ℕ) → IsCore five IsChip IsBoard v
        → machines.IsQuiet five (machine_of five v) from → to ≤ from + frame_cycles (console_of (machine_of five v)).pal → to ≤ last_cycle
        → kept_in (machine_of five v) ≡ no_media
        → IsCore five IsChip IsBoard w → machines.IsRunTo five (machine_of five v) to (machine_of five w) w.journal
        → IsRunTo (console_of (machine_of five v)) to (console_of (machine_of five w)) w.journal (kept_in (machine_of five w)) }
    ensures entries { (v w : CoreValue Chip Board) (from to : ℕ) → IsCore five IsChip IsBoard v
        → machines.IsQuiet five (machine_of five v) from → to ≤ from + frame_cycles (console_of (machine_of five v)).pal → to ≤ last_cycle
        → machines.IsRunTo five (machine_of five v) to (machine_of five w) w.journal
        → length w.journal ≤ most_entries (console_of (machine_of five v)).pal }
    ensures samples { (v w : CoreValue Chip Board) (from to : ℕ) → IsCore five IsChip IsBoard v
        → machines.IsQuiet five (machine_of five v) from → to ≤ from + frame_cycles (console_of (machine_of five v)).pal → to ≤ last_cycle
        → kept_in (machine_of five v) ≡ no_media
        → machines.IsRunTo five (machine_of five v) to (machine_of five w) w.journal
        → length (kept_in (machine_of five w)).levels ≤ most_pairs (console_of (machine_of five v)).pal }
{
    laws::stages::<MdChips>();
    laws::limits::<MdChips>();
}
