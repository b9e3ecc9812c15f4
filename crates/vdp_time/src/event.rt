ghost use Rattle.std.specs.Prelude.{◌≡◌, ◌%◌, ◌<◌, ◌≤◌, ℕ};
ghost use Rattle.md_word.specs.Clock.{cycle_limit};
ghost use Rattle.md_word.specs.Clock as clock;
ghost use Rattle.vdp_ports.specs.Rules.{HasRules};
ghost use Rattle.vdp_time.specs.Lines as meaning;

use crate::clock::line_of;
use md_word::clock::LINE;
use md_word::region::height;
use vdp_ports::VdpState;
use vdp_ports::register::{LINE_INTERVAL, MODE_2};

/// The event of the line that begins at a master cycle. That of line 0 first latches, on PAL, whether the
/// display is tall. It counts down to the horizontal interrupt, and on the line after the display
/// raises the vertical one and asks for the Z80's during the line. It does not touch the sprites'
/// overflow and collision. Source: Genesis Technical Overview, interrupts.
#[tactic(auto, unfolding(crate::specs::Lines::line_started))]
pub fn start_line(state: &mut VdpState, cycle: u64)
    requires { cycle ≤ cycle_limit }
    ensures value { state.new ≡ meaning.line_started cycle state.old }
    ensures rules { (at : ℕ) → cycle < at → cycle % clock.line ≡ 0 → HasRules at state.old → HasRules at state.new }
{
    let line = line_at(state, cycle);
    latch_height(state, line);
    count_line(state, line);
    raise(state, cycle, line);
}

/// The line of a cycle in a frame of the VDP's region.
fn line_at(state: &VdpState, cycle: u64) -> u32
    ensures { result ≡ meaning.line_of cycle state.now.pal }
{
    line_of(cycle, state.pal)
}

/// Latches the height of the display with line 0, on PAL alone.
#[tactic(auto, unfolding(crate::specs::Lines::heightened))]
fn latch_height(state: &mut VdpState, line: u32)
    ensures { state.new ≡ meaning.heightened line state.old }
{
    if line == 0 {
        state.tall = state.pal && state.registers[MODE_2] / 8 % 2 == 1;
    }
}

/// Counts a line of the display down to the horizontal interrupt.
#[tactic(auto, unfolding(crate::specs::Lines::counted))]
fn count_line(state: &mut VdpState, line: u32)
    ensures { state.new ≡ meaning.counted line state.old }
{
    if line < height(state.tall) && state.line_counter > 0 {
        state.line_counter -= 1;
        return;
    }
    if line < height(state.tall) {
        state.horizontal = true;
    }
    state.line_counter = state.registers[LINE_INTERVAL];
}

/// Raises the vertical interrupts after the display.
#[tactic(auto, unfolding(crate::specs::Lines::raised))]
fn raise(state: &mut VdpState, cycle: u64, line: u32)
    requires { cycle ≤ cycle_limit }
    ensures { state.new ≡ meaning.raised cycle line state.old }
{
    if line == height(state.tall) {
        state.vertical = true;
        state.int_from = cycle;
        state.int_to = cycle + LINE;
    }
}
