// The converter (DAC), which takes the place of channel 6's level. Source: Sega, Genesis Software
// Manual, FM registers 2A and 2B.

ghost use Rattle.std.specs.Prelude.{◌≡◌};
ghost use Rattle.fm_chip.specs.Channels as meaning;
ghost use Rattle.fm_voice.specs.Channel.{IsLevel};

use crate::registers::Registers;

const VALUE: usize = 0x2a;

const ENABLE: usize = 0x2b;

/// Whether the converter is heard in place of this channel.
#[tactic(auto, unfolding(crate::specs::Channels::replaces))]
fn replaces(registers: &Registers, number: u32) -> bool
    ensures { result ≡ meaning.replaces registers.now number }
{
    number == 5 && registers[ENABLE] >= 128
}

/// The level of a byte.
#[tactic(auto, using(std::proofs::lemmas::Int::ints), unfolding(crate::specs::Channels::converted))]
fn converted(value: u8) -> i32
    ensures value { result ≡ meaning.converted value }
    ensures level { IsLevel result }
{
    (i32::from(value) - 128) * 64
}

/// What is heard of channel `number`, whose own level is given.
#[tactic(auto, using(std::proofs::lemmas::Int::ints), unfolding(crate::specs::Channels::chosen))]
pub fn chosen(registers: &Registers, number: u32, level: i32) -> i32
    requires { IsLevel level }
    ensures value { result ≡ meaning.chosen registers.now number level }
    ensures level { IsLevel result }
{
    if replaces(registers, number) {
        converted(registers[VALUE])
    } else {
        level
    }
}
