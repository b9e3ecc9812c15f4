ghost use Rattle.std.specs.Prelude.{⊤};
ghost use Rattle.md_pads.specs.Buttons.{button_table, word_of};

use bitflags::{Flag, Flags};

/// A set of buttons of a pad, kept as the word of a recording: one bit a button, set while it is pressed.
/// Z, Y, X and Mode are on a six-button pad alone. Bits 15 to 12 name no button. Source: this project's
/// profile.
#[derive(Clone, Copy)]
pub struct Buttons(u16);

impl Buttons {
    pub const UP: Buttons = Buttons(0x01);

    pub const DOWN: Buttons = Buttons(0x02);

    pub const LEFT: Buttons = Buttons(0x04);

    pub const RIGHT: Buttons = Buttons(0x08);

    pub const B: Buttons = Buttons(0x10);

    pub const C: Buttons = Buttons(0x20);

    pub const A: Buttons = Buttons(0x40);

    pub const START: Buttons = Buttons(0x80);

    pub const Z: Buttons = Buttons(0x100);

    pub const Y: Buttons = Buttons(0x200);

    pub const X: Buttons = Buttons(0x400);

    pub const MODE: Buttons = Buttons(0x800);

    pub const FLAGS: &'static [Flag<Buttons>] = &[
        Flag {
            name: "UP",
            value: Buttons::UP,
        },
        Flag {
            name: "DOWN",
            value: Buttons::DOWN,
        },
        Flag {
            name: "LEFT",
            value: Buttons::LEFT,
        },
        Flag {
            name: "RIGHT",
            value: Buttons::RIGHT,
        },
        Flag {
            name: "B",
            value: Buttons::B,
        },
        Flag {
            name: "C",
            value: Buttons::C,
        },
        Flag {
            name: "A",
            value: Buttons::A,
        },
        Flag {
            name: "START",
            value: Buttons::START,
        },
        Flag {
            name: "Z",
            value: Buttons::Z,
        },
        Flag {
            name: "Y",
            value: Buttons::Y,
        },
        Flag {
            name: "X",
            value: Buttons::X,
        },
        Flag {
            name: "MODE",
            value: Buttons::MODE,
        },
    ];
}

impl Flags for Buttons {
    type Bits = u16;

    ghost exact = { ⊤ };

    ghost table = { button_table };

    ghost set_of = { word_of };

    fn flags<'a>() -> &'a [Flag<Buttons>] {
        Buttons::FLAGS
    }

    fn bits(&self) -> u16 {
        self.0
    }

    fn from_bits_retain(bits: u16) -> Buttons {
        Buttons(bits)
    }
}
