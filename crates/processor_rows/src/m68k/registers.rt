use md_word::Regs;
use row_lines::{RowError, long, parted};

/// The registers where nothing is said of them.
pub fn registers() -> Regs {
    Regs {
        d: [0; 8],
        a: [0; 7],
        usp: 0xff_8000,
        ssp: 0xff_f000,
        pc: 0x200,
        sr: 0x2700,
    }
}

/// The number of a data or address register, below 16.
fn number_of(name: &str) -> Option<u8> {
    match name.as_bytes() {
        [b'D', n @ b'0'..=b'7'] => Some(*n - b'0'),
        [b'A', n @ b'0'..=b'7'] => Some(*n - b'0' + 8),
        _ => None,
    }
}

/// Sets the register that is named; A7 is the active stack pointer.
pub fn set(regs: &mut Regs, name: &str, value: u32) -> Result<(), RowError> {
    match name {
        "US" => regs.usp = value,
        "SS" => regs.ssp = value,
        "PC" => regs.pc = value,
        "SR" if value < 0x1_0000 => regs.sr = value as u16,
        _ => return set_numbered(regs, name, value),
    }
    Ok(())
}

fn set_numbered(regs: &mut Regs, name: &str, value: u32) -> Result<(), RowError> {
    match number_of(name) {
        Some(number) if number < 16 => {
            regs.set_register(number, value);
            Ok(())
        }
        _ => Err(RowError::NoSuchLine),
    }
}

fn set_one(regs: &mut Regs, token: &str) -> Result<(), RowError> {
    let (name, value) = parted(token, '=')?;
    set(regs, name, long(value)?)
}

/// Sets each register of a list.
pub fn set_all(regs: &mut Regs, text: &str) -> Result<(), RowError> {
    for token in text.split_whitespace() {
        set_one(regs, token)?;
    }
    Ok(())
}

/// What is in the register that is named.
pub fn value_of(regs: &Regs, name: &str) -> Result<u32, RowError> {
    match name {
        "US" => Ok(regs.usp),
        "SS" => Ok(regs.ssp),
        "PC" => Ok(regs.pc),
        "SR" => Ok(u32::from(regs.sr)),
        _ => match number_of(name) {
            Some(number) if number < 16 => Ok(regs.register(number)),
            _ => Err(RowError::NoSuchLine),
        },
    }
}
