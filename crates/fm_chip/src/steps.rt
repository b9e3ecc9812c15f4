ghost use Rattle.std.specs.Prelude.{◌≡◌, ◌<◌, length};
ghost use Rattle.fm_chip.specs.Steps as meaning;
ghost use Rattle.fm_chip.specs.Steps.{AreSteps, IsSmall};

use crate::operator::phase_step;
use crate::registers::{Registers, SIDES_DEPTHS, of_channel};

/// The steps of a channel's four phases at a sample, below 2^21.
#[derive(Clone, Copy)]
pub struct Steps {
    pub one: u32,
    pub two: u32,
    pub three: u32,
    pub four: u32,
}

/// Makes the steps of all channels.
pub fn make_steps(channels: &mut [Steps; 6], registers: &Registers, place: u32)
    requires six { length channels.old ≡ 6 }
    requires place { place < 32 }
    ensures { AreSteps registers.now place channels.new }
{
    for number in 0..6 {
        channels[number as usize] = steps_of(registers, place, number);
    }
}

/// The steps of channel `number`.
#[tactic(auto, unfolding(crate::specs::Steps::steps_of))]
fn steps_of(registers: &Registers, place: u32, number: u32) -> Steps
    requires place { place < 32 }
    requires number { number < 6 }
    ensures value { result ≡ meaning.steps_of registers.now place number }
    ensures small { IsSmall result }
{
    let depth = of_channel(registers, number, SIDES_DEPTHS) % 8;
    Steps {
        one: phase_step(registers, depth, place, number, 0),
        two: phase_step(registers, depth, place, number, 1),
        three: phase_step(registers, depth, place, number, 2),
        four: phase_step(registers, depth, place, number, 3),
    }
}
