ghost use Rattle.std.specs.Prelude.{◌≡◌, ◌<◌, length, false};
ghost use Rattle.fm_chip.specs.Steps.{AreSteps};
ghost use Rattle.fm_chip.specs.Shapes.{AreShapes};
ghost use Rattle.fm_chip.specs.Kept.{IsFresh, forgotten, is_kept_from};

use crate::registers::Registers;
use crate::shapes::{Shape, Shapes, make_shapes};
use crate::steps::{Steps, make_steps};

/// The register of channel 3's mode.
const MODE: usize = 0x27;

/// The first register of an operator.
const FIRST: usize = 0x30;

/// What the registers say of all channels, kept while they stay as they are.
#[derive(Clone, Copy)]
pub struct Kept {
    /// Whether it is what the registers say as these are.
    pub fresh: bool,
    /// Vibrato's place for which the steps were made, 0 to 31.
    pub place: u32,
    pub steps: [Steps; 6],
    pub shapes: [Shapes; 6],
}

impl Kept {
    /// Nothing.
    pub fn none() -> Kept
        ensures fresh { result.fresh ≡ false }
        ensures steps { length result.steps ≡ 6 }
        ensures shapes { length result.shapes ≡ 6 }
    {
        let steps = Steps {
            one: 0,
            two: 0,
            three: 0,
            four: 0,
        };
        let shape = Shape {
            attack: 0,
            decay: 0,
            sustain: 0,
            release: 0,
            sustain_level: 0,
            total_level: 0,
            has_tremolo: false,
        };
        let shapes = Shapes {
            one: shape,
            two: shape,
            three: shape,
            four: shape,
        };
        Kept {
            fresh: false,
            place: 0,
            steps: [steps; 6],
            shapes: [shapes; 6],
        }
    }

    /// Makes what is not kept, for a place of vibrato, 0 to 31.
    pub fn renew(&mut self, registers: &Registers, place: u32)
        requires fresh { IsFresh registers.now self.old }
        requires place { place < 32 }
        ensures steps { AreSteps registers.now place self.new.steps }
        ensures shapes { AreShapes registers.now self.new.shapes }
        ensures fresh { IsFresh registers.now self.new }
    {
        if self.fresh && self.place == place {
            return;
        }
        self.make(registers, place);
    }

    /// Makes it: seldom, so that it stays out of the way of samples.
    #[inline(never)]
    fn make(&mut self, registers: &Registers, place: u32)
        requires fresh { IsFresh registers.now self.old }
        requires place { place < 32 }
        ensures steps { AreSteps registers.now place self.new.steps }
        ensures shapes { AreShapes registers.now self.new.shapes }
        ensures fresh { IsFresh registers.now self.new }
    {
        if !self.fresh {
            make_shapes(&mut self.shapes, registers);
        }
        make_steps(&mut self.steps, registers, place);
        self.place = place;
        self.fresh = true;
    }

    /// Forgets it where it depends on the register at a place, which is to change.
    #[tactic(auto, unfolding(crate::specs::Kept::forgotten))]
    pub fn forget(&mut self, place: usize)
        ensures { self.new ≡ forgotten place self.old }
    {
        if is_kept_from(place) {
            self.fresh = false;
        }
    }
}

/// Whether what is kept depends on the register at a place: on those of channels and operators, and on
/// the mode of channel 3.
fn is_kept_from(place: usize) -> bool
    ensures { result ≡ is_kept_from place }
{
    place == MODE || place >= FIRST
}
