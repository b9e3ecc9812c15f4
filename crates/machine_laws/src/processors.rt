//! The two processors in the machines that a run reaches: laws, as calls that do nothing and stand for
//! what they ensure.

ghost use Rattle.std.specs.Prelude.{◌≡◌, ℕ, Bool, ◌≤◌, List};
ghost use Rattle.md_fields.specs.Places.{IsBytes};
ghost use Rattle.md_pads.specs.Recording.{Recorded};
ghost use Rattle.md_word.specs.declared.event.Entry.{Entry};
ghost use Rattle.m68k_chip.specs.Spelling as main;
ghost use Rattle.z80_chip.specs.Spelling as sub;
ghost use Rattle.md_chips.specs.Console.{Console, IsRunTo, power_on};
ghost use Rattle.md_chips.specs.Media.{Media};
ghost use Rattle.md_chips.specs.Owners.{HasOneOwner};
ghost use Rattle.machine_laws.specs.Processors.{HasProcessors, IsValid};

use md_machine::Machine;
use rom_header::Cart;

/// A cartridge is bytes.
fn known_bytes(bytes: &[u8])
    ensures { IsBytes bytes.now }
{
    let _bytes = bytes;
}

/// At power-on the rules of the processors hold, at each cycle.
pub fn processors_at_power_on(cart: &Cart)
    ensures { (recording : Recorded) (pal : Bool) (at : ℕ) → HasProcessors at (power_on cart.now recording pal) }
{
    known_bytes(cart.bytes());
}

/// A run to a cycle keeps them, from any machine of which they hold at a cycle that is no later.
pub fn processors_of_runs()
    ensures { (m z : Console) (at end : ℕ) (entries : List Entry) (output : Media) → HasProcessors at m → at ≤ end
        → IsRunTo m end z entries output → HasProcessors end z }
{}

/// Each machine is valid.
pub fn valid_machine(machine: &Machine)
    ensures { IsValid machine.now.console }
{
    machine.main_chip().next();
    machine.sub_chip().next();
    machine.shared().known();
    known_bytes(machine.cart().bytes());
}

/// They hold of each machine whose processors the bytes of a state at the cycle keep, with the one
/// cartridge, the one owner of the Z80's RAM, and no more resets seen than there were.
pub fn processors_of_states(machine: &Machine)
    ensures { (cart : List ℕ) (at : ℕ) (kept held : List ℕ) → let m = machine.now.console in
        m.cart ≡ cart → m.sub.cart ≡ cart → main.Spells cart at kept m.main → sub.Spells cart at held m.sub.state
        → HasOneOwner m → m.sub.state.resets ≤ m.shared.resets → HasProcessors at m }
{
    valid_machine(machine);
    known_bytes(machine.main_chip().ram());
}
