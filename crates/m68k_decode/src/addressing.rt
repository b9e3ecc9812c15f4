ghost use Rattle.std.specs.Prelude.{◌≡◌, ◌/◌, ◌%◌, ◌+◌, ◌<◌};
ghost use Rattle.m68k_decode.specs.Addressing as classes;
ghost use Rattle.m68k_decode.specs.Lines as lines;

/// The number of a mode and its register: 0 to 6 those with a register, then xxx.W, xxx.L,
/// d16(PC), d8(PC,Xn) and #; above 11 there is none.
pub fn mode_number(mode: u16, register: u16) -> u16
    requires mode_in_range { mode < 8 }
    requires register_in_range { register < 8 }
    ensures value { result ≡ classes.mode_number mode register }
    ensures below { result < 15 }
{
    if mode < 7 { mode } else { 7 + register }
}

/// The number of the mode in the low six bits.
pub fn low_mode_number(word: u16) -> u16
    ensures { result ≡ classes.low_mode_number word }
{
    mode_number(word >> 3 & 7, word & 7)
}

/// Whether the low six bits are a mode.
pub fn is_any(word: u16) -> bool
    ensures { result ≡ classes.any (classes.low_mode_number word) }
{
    low_mode_number(word) < 12
}

/// Whether the low six bits are a data mode.
pub fn is_data(word: u16) -> bool
    ensures { result ≡ classes.data_mode (classes.low_mode_number word) }
{
    matches!(low_mode_number(word), 0 | 2..=11)
}

/// Whether the low six bits are a control mode.
pub fn is_control(word: u16) -> bool
    ensures { result ≡ classes.control (classes.low_mode_number word) }
{
    matches!(low_mode_number(word), 2 | 5..=10)
}

/// Whether the low six bits are an alterable mode.
pub fn is_alterable(word: u16) -> bool
    ensures { result ≡ classes.alterable (classes.low_mode_number word) }
{
    low_mode_number(word) <= 8
}

/// Whether the low six bits are a data alterable mode.
pub fn is_data_alterable(word: u16) -> bool
    ensures { result ≡ classes.data_alterable (classes.low_mode_number word) }
{
    matches!(low_mode_number(word), 0 | 2..=8)
}

/// Whether the low six bits are a memory alterable mode.
pub fn is_memory_alterable(word: u16) -> bool
    ensures { result ≡ classes.memory_alterable (classes.low_mode_number word) }
{
    matches!(low_mode_number(word), 2..=8)
}

/// Whether the low six bits are a data mode other than #.
pub fn is_data_but_immediate(word: u16) -> bool
    ensures { result ≡ classes.data_but_immediate (classes.low_mode_number word) }
{
    matches!(low_mode_number(word), 0 | 2..=10)
}

/// Whether the low six bits are a mode of MOVEM to memory.
pub fn is_control_alterable_or_predecrement(word: u16) -> bool
    ensures { result ≡ classes.control_alterable_or_predecrement (classes.low_mode_number word) }
{
    matches!(low_mode_number(word), 2 | 4..=8)
}

/// Whether the low six bits are a mode of MOVEM to registers.
pub fn is_control_or_postincrement(word: u16) -> bool
    ensures { result ≡ classes.control_or_postincrement (classes.low_mode_number word) }
{
    matches!(low_mode_number(word), 2 | 3 | 5..=10)
}

/// Whether the target of MOVE is a data alterable mode: its register precedes its mode.
pub fn is_data_alterable_target(word: u16) -> bool
    ensures { result ≡ classes.data_alterable (classes.mode_number (word / 64 % 8) (word / 512 % 8)) }
{
    matches!(mode_number(word >> 6 & 7, word >> 9 & 7), 0 | 2..=8)
}

/// Whether bits 7 and 6 are a size.
pub fn is_sized(word: u16) -> bool
    ensures { result ≡ lines.sized word }
{
    word >> 6 & 3 != 3
}

/// Whether the operand is a byte of an address register, which there is not.
pub fn is_byte_of_address(word: u16) -> bool
    ensures { result ≡ lines.byte_of_address word }
{
    word >> 6 & 3 == 0 && word >> 3 & 7 == 1
}
