// Replies of the debugger, for the cartridge of 512 bytes that branches to itself at 1FCh.
use crate::cartridges::in_one_line;
use crate::fixture::reported;
use debug_text::{address_reply, byte_reply, instruction_reply, register_reply, report_reply};
use md_word::{NoMemory, Regs};
use row_lines::{RowError, first_word, long, number, parted, push, readable};
use std::alloc::Global;

/// Empty work RAM.
const NO_RAM: [u8; 65536] = [0; 65536];

/// The last address of the bus.
const LAST: u32 = 0xff_ffff;

/// The most bytes or instructions that are asked for.
const MOST: u32 = 256;

/// The registers at power-on with that cartridge.
const REGS: Regs = Regs {
    d: [0; 8],
    a: [0; 7],
    usp: 0,
    ssp: 0xff_f000,
    pc: 0x1fc,
    sr: 0x2700,
};

/// Its image.
fn image() -> [u8; 512] {
    let mut image = [0; 512];
    image[0x1fc] = 0x60;
    image[0x1fd] = 0xfe;
    image
}

/// A reply as an answer, `none` where it is empty.
fn line_of(alloc: Global, reply: Result<String, NoMemory>) -> Result<String, RowError> {
    match reply {
        Ok(text) if text.is_empty() => reported(alloc, "none"),
        Ok(text) => in_one_line(alloc, text.as_bytes(), '.'),
        Err(_) => Err(RowError::Memory),
    }
}

/// An address, and how many bytes or instructions from there on.
fn place_of(text: &str) -> Result<(u32, u32), RowError> {
    let (at, count) = parted(text, ' ')?;
    let count = readable(u32::try_from(number(count)?))?;
    Ok((long(at)?, count))
}

fn bytes(alloc: Global, text: &str) -> Result<String, RowError> {
    let (at, count) = place_of(text)?;
    if at > LAST || count > MOST {
        return Err(RowError::NoSuchLine);
    }
    line_of(alloc, byte_reply(alloc, &image(), &NO_RAM, at, count))
}

fn instructions(alloc: Global, text: &str) -> Result<String, RowError> {
    let (at, count) = place_of(text)?;
    if at > LAST || at % 2 != 0 || count > MOST {
        return Err(RowError::NoSuchLine);
    }
    line_of(
        alloc,
        instruction_reply(alloc, &image(), &NO_RAM, at, count),
    )
}

fn addresses(alloc: Global, text: &str) -> Result<String, RowError> {
    let mut list = Vec::new(alloc);
    for address in text.split_whitespace() {
        push(&mut list, long(address)?)?;
    }
    line_of(alloc, address_reply(alloc, &list))
}

/// What is replied: `registers`, `report CYCLE`, `instructions ADDRESS N`, `bytes ADDRESS N`, `addresses ADDRESS ..`.
pub(crate) fn reply(alloc: Global, text: &str) -> Result<String, RowError> {
    let (verb, rest) = first_word(text);
    match verb {
        "registers" => line_of(alloc, register_reply(alloc, &REGS)),
        "report" => line_of(alloc, report_reply(alloc, number(rest)?, &REGS)),
        "instructions" => instructions(alloc, rest),
        "bytes" => bytes(alloc, rest),
        "addresses" => addresses(alloc, rest),
        _ => Err(RowError::NoSuchLine),
    }
}
