//! The VDP and its renderer in the machines that a run reaches: laws, as calls that do nothing and stand for
//! what they ensure.

ghost use Rattle.std.specs.Prelude.{ℕ, Bool, ◌^◌, ◌≤◌, List};
ghost use Rattle.md_word.specs.Clock as clock;
ghost use Rattle.md_pads.specs.Recording.{Recorded};
ghost use Rattle.md_word.specs.declared.event.Entry.{Entry};
ghost use Rattle.vdp_chip.specs.Spelling as renderer_states;
ghost use Rattle.vdp_dma.specs.Settling.{settled};
ghost use Rattle.vdp_ports.specs.Spelling as vdps;
ghost use Rattle.md_chips.specs.Console.{Console, IsQuiet, IsRunTo, renderer_state_in, power_on};
ghost use Rattle.md_chips.specs.Media.{Media};
ghost use Rattle.machine_laws.specs.Video.{HasVideo};

/// At power-on the rules of the VDP and of its renderer hold, at each cycle.
pub fn video_at_power_on()
    ensures { (cart : List ℕ) (recording : Recorded) (pal : Bool) (at : ℕ) → HasVideo at (power_on cart recording pal) }
{}

/// A run to a cycle keeps them, from any machine of which they hold at a cycle that is no later.
pub fn video_of_runs()
    ensures { (m z : Console) (at end : ℕ) (entries : List Entry) (output : Media) → HasVideo at m → at ≤ end
        → IsRunTo m end z entries output → HasVideo end z }
{}

/// Where they hold at a cycle, the VDP that is settled to it may be kept in a state at it.
pub fn vdp_may_be_kept()
    ensures { (at : ℕ) (m : Console) → HasVideo at m → vdps.IsSettled at (settled at m.shared.vdp) }
{}

/// And so may the renderer, where no next event is below the cycle: its bytes are read again.
pub fn renderer_state_may_be_kept()
    ensures ready { (at : ℕ) (m : Console) → HasVideo at m → IsQuiet at m → renderer_states.IsReady at (renderer_state_in m) }
    ensures spells { (at : ℕ) (m : Console) → at ≤ clock.cycle_limit → HasVideo at m → IsQuiet at m
        → renderer_states.Spells at m.pal (renderer_states.renderer_state_bytes (renderer_state_in m)) (renderer_state_in m) }
{}

/// They hold of each machine whose VDP and VDP renderer the bytes of a state at the cycle keep.
pub fn video_of_states()
    ensures { (at : ℕ) (pal : Bool) (bytes drawn : List ℕ) (m : Console) → vdps.Spells at pal bytes m.shared.vdp
        → renderer_states.Spells at pal drawn (renderer_state_in m) → HasVideo at m }
{}
