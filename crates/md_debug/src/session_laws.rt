//! Laws of the debugger's scripts and states, as calls that do nothing and stand for what they ensure.

ghost use Rattle.std.specs.Prelude.{◌≡◌, ◌≢◌, ℕ, ◌^◌, ◌≤◌, List};
ghost use Rattle.md_word.specs.Clock as clock;
ghost use Rattle.md_word.specs.declared.event.Entry.{Entry};
ghost use Rattle.md_chips.specs.Console.{Console, IsRunTo};
ghost use Rattle.md_chips.specs.Machines.{MachineValue};
ghost use Rattle.md_chips.specs.Media.{Media};
ghost use Rattle.machine_laws.specs.Settling.{GoesOn};
ghost use Rattle.debug_text.specs.declared.outcome.ScriptOutcome.{ScriptOutcome};
ghost use Rattle.md_debug.specs.declared.fault.DebugFault.{DebugFault};
ghost use Rattle.debug_text.specs.declared.outcome.ScriptOutcome.TheVariants.{OutOfMemory};
ghost use Rattle.state_laws.specs.Images.{HasImage, ImagesValue, settled_of};
ghost use Rattle.md_debug.specs.Laws.{DebugLaws};
ghost use Rattle.md_debug.specs.Opened.{PlaysScript};

use machine_laws::settling::settled_machines_go_on;

/// A script has one outcome alone, where memory suffices.
pub fn scripts_have_one_outcome()
    ensures { (cart script first second : List ℕ) (script_outcome other : ScriptOutcome DebugFault) → PlaysScript cart script first script_outcome → PlaysScript cart script second other
        → script_outcome ≢ OutOfMemory → other ≢ OutOfMemory → (first ≡ second) × (script_outcome ≡ other) }
{}

/// A machine continues from its kept state as it would have continued: with the same entries, frames and samples,
/// and to the same machine but for what is settled in a state.
pub fn kept_machines_go_on()
    ensures { (images : ImagesValue) (m : MachineValue) (z : Console) (end : ℕ) (entries : List Entry) (output : Media) → HasImage images m → m.at ≤ end → end ≤ clock.cycle_limit
        → IsRunTo m.console end z entries output → GoesOn end (settled_of images m).console z entries output }
{
    settled_machines_go_on();
}

/// Both, for whoever cites them.
pub fn debug_laws()
    ensures { DebugLaws }
{
    scripts_have_one_outcome();
    kept_machines_go_on();
}
