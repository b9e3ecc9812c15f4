//! The machines that a run reaches may be kept in a saved state: laws, as calls that do nothing and stand for
//! what they ensure.

ghost use Rattle.std.specs.Prelude.{ℕ, Bool, ◌^◌, ◌≤◌, All, List};
ghost use Rattle.md_word.specs.Clock as clock;
ghost use Rattle.md_pads.specs.Recording.{IsFrame, Recorded};
ghost use Rattle.md_word.specs.declared.event.Entry.{Entry};
ghost use Rattle.md_chips.specs.Console.{Console, IsRunTo, power_on};
ghost use Rattle.md_chips.specs.Media.{Media};
ghost use Rattle.md_chips.specs.Starts.{IsStart, Start};
ghost use Rattle.save_state.specs.Ready.{IsReady};
ghost use Rattle.md_word.specs.Clock.{last_cycle};
ghost use Rattle.save_state.specs.Versions.{IsState};
ghost use Rattle.machine_laws.specs.Reached.{IsReached};

use crate::{board, processors, timers, video, writes};
use md_machine::{Machine, laws};
use rom_header::Cart;

/// At power-on, with a recording of buttons, all rules hold at cycle 0.
pub fn power_on_is_reached(cart: &Cart)
    ensures { (recording : Recorded) (pal : Bool) → All IsFrame recording.frames → IsReached 0 (power_on cart.now recording pal) }
{
    laws::power_on_is_start();
    laws::parts_start_valid(cart);
    processors::processors_at_power_on(cart);
    video::video_at_power_on();
    board::lines_at_power_on();
    writes::power_on_has_writes();
    timers::power_on_has_timers();
}

/// A run to a cycle of at most 2^50 keeps them, from any machine of which they hold at a cycle that is no later.
pub fn runs_reach()
    ensures { (m z : Console) (at end : ℕ) (entries : List Entry) (output : Media) → IsReached at m → at ≤ end → end ≤ clock.cycle_limit
        → IsRunTo m end z entries output → IsReached end z }
{
    laws::run_ends_at_start();
    laws::parts_stay_valid();
    processors::processors_of_runs();
    video::video_of_runs();
    board::lines_of_runs();
    writes::writes_are_kept();
    timers::timers_are_kept();
}

/// Where they hold at a cycle from 1 to 549,755,813,888, the machine may be kept there, so that what
/// `save_state::write` makes of it is read again.
pub fn reached_may_be_kept()
    ensures { (at : ℕ) (m : Console) → 1 ≤ at → at ≤ last_cycle → IsReached at m → IsReady at m }
{
    board::board_may_be_kept();
    video::renderer_state_may_be_kept();
}

/// So may each machine that a run from power-on reaches.
pub fn runs_may_be_kept(cart: &Cart)
    ensures { (recording : Recorded) (pal : Bool) (z : Console) (end : ℕ) (entries : List Entry) (output : Media) → All IsFrame recording.frames
        → 1 ≤ end → end ≤ last_cycle → IsRunTo (power_on cart.now recording pal) end z entries output → IsReady end z }
{
    power_on_is_reached(cart);
    runs_reach();
    reached_may_be_kept();
}

/// They hold of each machine that a saved state keeps, as `save_state::read` gives it, with a recording of
/// buttons, at its cycle.
pub fn states_are_reached(machine: &Machine)
    ensures { (cart bytes : List ℕ) → let m = machine.now in let start : Start = record { at = m.at; console = m.console } in
        IsState cart bytes start → IsStart start → All IsFrame m.console.shared.recording.frames → IsReached m.at m.console }
{
    laws::parts_are_valid(machine);
    processors::processors_of_states(machine);
    video::video_of_states();
    board::lines_of_states();
    writes::writes_of_states();
    timers::timers_of_states();
}

/// So each machine that a run from a saved state reaches may be kept.
pub fn resumed_runs_may_be_kept(machine: &Machine)
    ensures { (cart bytes : List ℕ) (z : Console) (end : ℕ) (entries : List Entry) (output : Media) → let m = machine.now in let start : Start = record { at = m.at; console = m.console } in
        IsState cart bytes start → IsStart start → All IsFrame m.console.shared.recording.frames → m.at ≤ end → end ≤ last_cycle
        → IsRunTo m.console end z entries output → IsReady end z }
{
    states_are_reached(machine);
    runs_reach();
    reached_may_be_kept();
}
