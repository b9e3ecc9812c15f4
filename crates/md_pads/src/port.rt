ghost use Rattle.std.specs.Prelude.{◌≡◌, ◌≤◌, Bool, true, false, [], ◌∷◌, length};
ghost use Rattle.md_word.specs.Clock.{cycle_limit};
ghost use Rattle.md_pads.specs.Buttons.{button_a, start, word_of};
ghost use Rattle.md_pads.specs.Pad.{binary, cleared, control_written, counted, fourth_lines, in_force, is_th_high, lines, lines_by, pad_value, released, third_lines, value_written};

use crate::buttons::Buttons;
use bitflags::Flags;
use std::marker::Model;

/// The bit of TH, the line that selects which buttons are read.
const TH: u8 = 0x40;

const BIT_7: u8 = 0x80;

/// For how many master cycles a six-button pad remembers a fall of TH.
const MEMORY: u64 = 80_000;

/// The port of a pad of three buttons or of six. It keeps the last byte written to its data and the last written
/// to its control. It also keeps how many falls of TH its pad counted, up to four, and the master cycle of the
/// last of them.
/// Source: Genesis Technical Overview, the control pads; of the count this project's profile.
#[derive(Clone, Copy)]
pub struct PadPort {
    value: u8,
    control: u8,
    count: u8,
    fall: u64,
}

impl Model for PadPort {
    ghost use Rattle.std.specs.Prelude.{◌≤◌};
    ghost use Rattle.md_word.specs.Clock.{cycle_limit};
    ghost use Rattle.md_pads.specs.Pad.{Port};

    ghost Value = { Port };

    ghost view = { λ port. record { value = port.value; control = port.control; count = port.count; fall = port.fall } };

    ghost inverse = { λ port. record { value = port.value; control = port.control; count = port.count; fall = port.fall } };

    ghost invariant = { λ port. (port.count ≤ 4) × (port.fall ≤ cycle_limit) };
}

impl PadPort {
    /// The port at power-on, whose latches are 0 and whose pad counted no fall.
    pub fn power_on() -> PadPort
        ensures { result ≡ cleared }
    {
        PadPort {
            value: 0,
            control: 0,
            count: 0,
            fall: 0,
        }
    }

    /// The port with these latches, count of falls and cycle of the last.
    pub fn with(value: u8, control: u8, count: u8, fall: u64) -> PadPort
        requires count { count ≤ 4 }
        requires fall { fall ≤ cycle_limit }
        ensures { result ≡ record { value = value; control = control; count = count; fall = fall } }
    {
        PadPort {
            value,
            control,
            count,
            fall,
        }
    }

    /// What the port reads at a master cycle while the buttons of the word are pressed. A button's line reads
    /// 0 while it is pressed. TH is bit 6 of the value latch where bit 6 of the control latch is 1, else 1.
    /// With TH at 1 bits 6 to 0 are 1, C, B, Right, Left, Down and Up; with TH at 0 they are 0, Start, A, 0,
    /// 0, Down and Up. A six-button pad that counted three falls reads 1, C, B, Mode, X, Y and Z with TH at 1,
    /// and 0, Start, A, 0, 0, 0, 0 with TH at 0. One that counted four reads 0, Start, A, 1, 1, 1, 1 with TH
    /// at 0. 80,000 cycles after the last fall the count is forgotten. Bit 7 is that of the value latch.
    pub fn read(&self, cycle: u64, six: bool, buttons: u16) -> u8
        ensures { result ≡ pad_value cycle six self.now buttons }
    {
        let bit_7 = self.value & BIT_7 != 0;
        let pressed = Buttons::from_bits_retain(buttons);
        byte_of(&levels(bit_7, six, self.in_force(cycle), self.is_th_high(), pressed))
    }

    /// Writes the value latch at a master cycle. A fall of TH is counted.
    pub fn write_value(&mut self, cycle: u64, value: u8)
        requires { cycle ≤ cycle_limit }
        ensures { self.new ≡ value_written cycle value self.old }
    {
        let was_high = self.is_th_high();
        self.value = value;
        self.count_fall(cycle, was_high);
    }

    /// Writes the control latch at a master cycle. A fall of TH is counted.
    pub fn write_control(&mut self, cycle: u64, value: u8)
        requires { cycle ≤ cycle_limit }
        ensures { self.new ≡ control_written cycle value self.old }
    {
        let was_high = self.is_th_high();
        self.control = value;
        self.count_fall(cycle, was_high);
    }

    /// The value latch, as it was last written.
    pub fn value(&self) -> u8
        ensures { result ≡ self.now.value }
    {
        self.value
    }

    /// The control latch, as it was last written.
    pub fn control(&self) -> u8
        ensures { result ≡ self.now.control }
    {
        self.control
    }

    /// How many falls of TH were counted, 0 to 4; they may be forgotten since.
    pub fn count(&self) -> u8
        ensures value { result ≡ self.now.count }
        ensures few { result ≤ 4 }
    {
        self.count
    }

    /// The master cycle of the last fall that was counted, or 0.
    pub fn fall(&self) -> u64
        ensures { result ≡ self.now.fall }
    {
        self.fall
    }

    fn is_th_high(&self) -> bool
        ensures { result ≡ is_th_high self.now }
    {
        self.control & TH == 0 || self.value & TH != 0
    }

    fn in_force(&self, cycle: u64) -> u8
        ensures value { result ≡ in_force cycle self.now }
        ensures few { result ≤ 4 }
    {
        if cycle < self.fall + MEMORY {
            self.count
        } else {
            0
        }
    }

    /// Counts a fall of TH after a write at a cycle, by whether TH was 1 before it.
    fn count_fall(&mut self, cycle: u64, was_high: bool)
        requires { cycle ≤ cycle_limit }
        ensures { self.new ≡ counted cycle was_high self.old }
    {
        if was_high && !self.is_th_high() {
            self.count = 1 + self.in_force(cycle) % 4;
            self.fall = cycle;
        }
    }
}

/// Bits 7 to 0 by the kind of pad, the count in force and the level of TH.
fn levels(bit_7: bool, six: bool, count: u8, high: bool, pressed: Buttons) -> [bool; 8]
    ensures { result ≡ bit_7 ∷ lines_by six count high (word_of pressed) }
{
    if six && count == 3 {
        third_levels(bit_7, high, pressed)
    } else if six && count == 4 {
        fourth_levels(bit_7, high, pressed)
    } else {
        usual_levels(bit_7, high, pressed)
    }
}

/// Those of any pad, but for the third and the fourth fall of a six-button pad.
fn usual_levels(bit_7: bool, high: bool, pressed: Buttons) -> [bool; 8]
    ensures { result ≡ bit_7 ∷ lines high (word_of pressed) }
{
    if high {
        high_levels(bit_7, pressed)
    } else {
        low_levels(bit_7, pressed)
    }
}

/// Those after the third fall.
fn third_levels(bit_7: bool, high: bool, pressed: Buttons) -> [bool; 8]
    ensures { result ≡ bit_7 ∷ third_lines high (word_of pressed) }
{
    if high {
        [
            bit_7,
            true,
            !pressed.contains(Buttons::C),
            !pressed.contains(Buttons::B),
            !pressed.contains(Buttons::MODE),
            !pressed.contains(Buttons::X),
            !pressed.contains(Buttons::Y),
            !pressed.contains(Buttons::Z),
        ]
    } else {
        start_and_a(bit_7, false, pressed)
    }
}

/// Those after the fourth fall.
fn fourth_levels(bit_7: bool, high: bool, pressed: Buttons) -> [bool; 8]
    ensures { result ≡ bit_7 ∷ fourth_lines high (word_of pressed) }
{
    if high {
        high_levels(bit_7, pressed)
    } else {
        start_and_a(bit_7, true, pressed)
    }
}

/// Bits 7 to 0 with TH at 0, the four lowest at one level.
fn start_and_a(bit_7: bool, low: bool, pressed: Buttons) -> [bool; 8]
    ensures { result ≡ bit_7 ∷ false ∷ released (word_of pressed) start ∷ released (word_of pressed) button_a ∷ low ∷ low ∷ low ∷ low ∷ [] }
{
    [
        bit_7,
        false,
        !pressed.contains(Buttons::START),
        !pressed.contains(Buttons::A),
        low,
        low,
        low,
        low,
    ]
}

/// The usual ones with TH at 1.
fn high_levels(bit_7: bool, pressed: Buttons) -> [bool; 8]
    ensures { result ≡ bit_7 ∷ lines true (word_of pressed) }
{
    [
        bit_7,
        true,
        !pressed.contains(Buttons::C),
        !pressed.contains(Buttons::B),
        !pressed.contains(Buttons::RIGHT),
        !pressed.contains(Buttons::LEFT),
        !pressed.contains(Buttons::DOWN),
        !pressed.contains(Buttons::UP),
    ]
}

/// The usual ones with TH at 0.
fn low_levels(bit_7: bool, pressed: Buttons) -> [bool; 8]
    ensures { result ≡ bit_7 ∷ lines false (word_of pressed) }
{
    [
        bit_7,
        false,
        !pressed.contains(Buttons::START),
        !pressed.contains(Buttons::A),
        false,
        false,
        !pressed.contains(Buttons::DOWN),
        !pressed.contains(Buttons::UP),
    ]
}

/// The byte with these binary digits, the highest first.
fn byte_of(digits: &[bool]) -> u8
    requires { length digits.now ≤ 8 }
    ensures { result ≡ binary digits.now }
{
    let mut byte = 0;
    for &digit in digits {
        byte = 2 * byte + u8::from(digit);
    }
    byte
}
