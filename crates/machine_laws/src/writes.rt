//! The writes that the sound chips' ports hold in the machines that a run reaches: laws, as calls that do
//! nothing and stand for what they ensure.

ghost use Rattle.std.specs.Prelude.{◌≡◌, ℕ, Bool, ◌^◌, ◌≤◌, true, List};
ghost use Rattle.md_word.specs.Clock as clock;
ghost use Rattle.md_word.specs.declared.event.Entry.{Entry};
ghost use Rattle.fm_port.specs.PortSpelling as fm_port;
ghost use Rattle.psg_sound.specs.PortSpelling as psg_port;
ghost use Rattle.md_pads.specs.Recording.{Recorded};
ghost use Rattle.md_chips.specs.Console.{AllBelow, Console, IsRunTo, power_on, ran};
ghost use Rattle.md_chips.specs.Media.{Media};
ghost use Rattle.md_chips.specs.ValidParts.{HasValidParts};
ghost use Rattle.md_chips.specs.Starts.{IsStart, Start};
ghost use Rattle.save_state.specs.States.{are_fm_early, are_psg_early};
ghost use Rattle.machine_laws.specs.Paces.{ArePaced};
ghost use Rattle.machine_laws.specs.Writes.{HasRoom, HasWrites, IsBeginning};

use chip_core::laws;
use md_machine::{Machine, MdChips, laws as console_laws};

/// In a run each chip that moves has the least key, and its next event comes its gap later, at least.
pub fn events_are_paced()
    ensures { (z : Console) (end n : ℕ) → end ≤ clock.cycle_limit → HasValidParts z → AllBelow z end n → ArePaced z n }
{
    laws::stages::<MdChips>();
    laws::limits::<MdChips>();
}

/// At power-on the ports hold no write.
pub fn power_on_has_writes()
    ensures { (cart : List ℕ) (recording : Recorded) (pal : Bool) (at : ℕ) → HasWrites at (power_on cart recording pal) }
{}

/// A run from a start whose ports hold writes as a saved state's do reaches a machine of which that holds too.
pub fn writes_are_kept()
    ensures { (start : Start) (z : Console) (end : ℕ) (entries : List Entry) (output : Media) → end ≤ clock.cycle_limit
        → HasValidParts start.console → IsStart start → HasWrites start.at start.console → start.at ≤ end
        → IsRunTo start.console end z entries output → HasWrites end z }
{
    events_are_paced();
}

/// In each machine of such a run both ports have room for one more write, so that none is ever lost.
pub fn writes_have_room()
    ensures { (start : Start) (end n : ℕ) → end ≤ clock.cycle_limit
        → HasValidParts start.console → IsStart start → HasWrites start.at start.console → start.at ≤ end
        → AllBelow start.console end n → HasRoom (ran start.console n) }
{
    events_are_paced();
}

/// Writes are held so in each machine whose ports the bytes of a state at the cycle keep. There each write is
/// earlier than the next event of its processor, by the gap of that processor at least.
pub fn writes_of_states()
    ensures { (at : ℕ) (bytes pairs : List ℕ) (m : Console) → fm_port.SpellsPort at bytes m.shared.fm → psg_port.SpellsPort at pairs m.shared.psg
        → are_fm_early m.main.next m.sub.state.next m.shared.fm ≡ true → are_psg_early m.main.next m.sub.state.next m.shared.psg ≡ true
        → HasWrites at m }
{}

/// In each machine of a run to a cycle of at most 2^50, from power-on or from the machine that a saved state keeps,
/// both ports have room for one more write: no write that a program makes for the sound chips is ever lost.
pub fn no_write_is_lost(machine: &Machine)
    ensures { (cart bytes : List ℕ) (end n : ℕ) → let m = machine.now in let start : Start = record { at = m.at; console = m.console } in
        IsBeginning cart bytes start → m.at ≤ end → end ≤ clock.cycle_limit → AllBelow m.console end n → HasRoom (ran m.console n) }
{
    console_laws::power_on_is_start();
    console_laws::parts_are_valid(machine);
    power_on_has_writes();
    writes_of_states();
    writes_have_room();
}
