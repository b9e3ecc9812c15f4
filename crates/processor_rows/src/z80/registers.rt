// The registers of the Z80 by the names of the manual.
use row_lines::RowError;
use std::alloc::AllocError;
use std::fmt::Write;
use z80_decode::InterruptMode;
use z80_exec::Regs80;

/// The names, in the order in which registers are written out. IFF is IFF1 and IFF2, a digit each, and IM the mode of
/// interrupts.
static NAMES: [&str; 16] = [
    "AF", "BC", "DE", "HL", "AF'", "BC'", "DE'", "HL'", "IX", "IY", "SP", "PC", "I", "R", "IFF",
    "IM",
];

/// The values of the registers in that order.
pub type Values = [u16; 16];

/// The values where nothing is said of them.
pub const USUAL: Values = [
    0, 0x1213, 0x1415, 0x1617, 0xa1a2, 0xb1b2, 0xd1d2, 0xe1e2, 0x1819, 0x1a1b, 0x1c1d, 0x0100, 0,
    0, 0, 0,
];

/// Sets the register of this name; `NoSuchLine` where none has it.
pub fn set(values: &mut Values, name: &str, value: u16) -> Result<(), RowError> {
    for place in 0..16 {
        if NAMES[place] == name {
            values[place] = value;
            return Ok(());
        }
    }
    Err(RowError::NoSuchLine)
}

/// The registers of these values, as far as they fit.
pub fn registers_of(values: &Values) -> Regs80 {
    let [
        af,
        bc,
        de,
        hl,
        af2,
        bc2,
        de2,
        hl2,
        ix,
        iy,
        sp,
        pc,
        i,
        r,
        iff,
        im,
    ] = *values;
    Regs80 {
        af,
        bc,
        de,
        hl,
        af2,
        bc2,
        de2,
        hl2,
        ix,
        iy,
        sp,
        pc,
        i: (i % 0x100) as u8,
        r: (r % 0x100) as u8,
        iff1: iff / 0x10 == 1,
        iff2: iff % 0x10 == 1,
        mode: match im {
            0 => InterruptMode::Mode0,
            1 => InterruptMode::Mode1,
            _ => InterruptMode::Mode2,
        },
    }
}

/// The values of the registers.
pub fn values_of(regs: &Regs80) -> Values {
    let [i, r] = [u16::from(regs.i), u16::from(regs.r)];
    let iff = u16::from(regs.iff1) << 4 | u16::from(regs.iff2);
    let im = regs.mode as u16;
    [
        regs.af, regs.bc, regs.de, regs.hl, regs.af2, regs.bc2, regs.de2, regs.hl2, regs.ix,
        regs.iy, regs.sp, regs.pc, i, r, iff, im,
    ]
}

/// Writes out a register.
fn tell_one(text: &mut String, place: usize, value: u16) -> Result<(), AllocError> {
    let name = NAMES[place % 16];
    match place {
        0..=11 => write!(text, "{name}={value:04X} "),
        15 => write!(text, "{name}={value} "),
        _ => write!(text, "{name}={value:02X} "),
    }
}

/// Writes out the registers that are not as is usual. It fails where there is no memory for it.
pub fn tell(text: &mut String, values: &Values, usual: &Values) -> Result<(), AllocError> {
    for place in 0..16 {
        if values[place] != usual[place] {
            tell_one(text, place, values[place])?;
        }
    }
    Ok(())
}
