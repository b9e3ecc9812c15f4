// Events of the Z80, and the bytes that keep it in a saved state.
ghost use Rattle.std.specs.Prelude.{◌≡◌};

use crate::z80::fixture::Z80;
use crate::z80::setting::cartridge;
use md_word::{Pins80, Request80, Unspell};
use rom_header::Cart;
use row_lines::{RowError, compared, decimal_of, number, parted, pieces};
use std::alloc::Global;
use std::sync::Arc;
use z80_chip::{Chip80, FULL_SIZE};

fn shared(alloc: Global) -> Result<Arc<Cart>, RowError> {
    match Arc::new(alloc, cartridge(alloc)?) {
        Ok(cart) => Ok(cart),
        Err(_) => Err(RowError::Memory),
    }
}

/// Sets up the Z80 at power-on. It fails where there is no memory for it.
pub fn power_on(fixture: &mut Z80) -> Result<(), RowError> {
    match Chip80::power_on(fixture.alloc, shared(fixture.alloc)?) {
        Ok(chip) => {
            fixture.chip = Some(chip);
            Ok(())
        }
        Err(_) => Err(RowError::Memory),
    }
}

/// Takes the sample that is next with these pins, and where the Z80 does nothing all below `end`. No such thing where
/// no sample is next.
#[tactic(auto, unfolding(z80_chip::specs::States::next_of))]
fn take(chip: &mut Chip80, pins: &Pins80, end: u64) -> Result<(), RowError> {
    let next = chip.next();
    if !next.sample || next.key.cycle >= 1_000_000 || end >= 1_000_000 {
        return Err(RowError::NoSuchName);
    }
    if end == 0 {
        chip.sample(*pins);
    } else {
        let _samples = chip.sample_ahead(pins, end);
    }
    Ok(())
}

/// Pins `request`, `reset` or `-`.
fn pins_of(text: &str) -> Result<Pins80, RowError> {
    let (request, reset) = (text == "request", text == "reset");
    if !request && !reset && text != "-" {
        return Err(RowError::NoSuchLine);
    }
    Ok(Pins80 {
        request,
        reset,
        resets: 0,
        int_from: 0,
        int_to: 0,
    })
}

/// The event after a sample, or after those up to a cycle: its cycle, and whether it is an access.
/// `NoSuchName` where no Z80 is set up or no sample is next, `NoSuchLine` where the words are none.
pub fn sample(fixture: &mut Z80, words: &str) -> Result<String, RowError> {
    let (pins, end) = words.split_once(' ').unwrap_or((words, "0"));
    take(fixture.chip()?, &pins_of(pins)?, number(end)?)?;
    event(fixture)
}

/// The event that is next.
fn event(fixture: &mut Z80) -> Result<String, RowError> {
    let next = fixture.chip()?.next();
    let kind = if next.sample { "" } else { " access" };
    Ok(format!(in fixture.alloc; "{}{kind}", next.key.cycle)?)
}

/// The read that is next. No such thing where none is.
#[tactic(auto, unfolding(z80_chip::specs::States::next_of))]
fn read_of(chip: &mut Chip80) -> Result<(u64, u16), RowError> {
    let next = chip.next();
    if next.sample {
        return Err(RowError::NoSuchName);
    }
    match chip.request() {
        Request80::Read(at) => Ok((next.key.cycle, at)),
        _ => Err(RowError::NoSuchName),
    }
}

/// The cycle and the address of the read that is next; `NoSuchName` where none is.
pub fn request(fixture: &mut Z80) -> Result<String, RowError> {
    let (cycle, at) = read_of(fixture.chip()?)?;
    Ok(format!(in fixture.alloc; "{cycle} r:{at:04X}")?)
}

/// The bytes that keep a Z80.
#[tactic(auto, using(z80_chip::proofs::SpellingLaws::most))]
fn spelled(alloc: Global, chip: &Chip80, at: u64) -> Result<Vec<u8>, RowError> {
    let mut bytes = Vec::with_capacity(alloc, FULL_SIZE)?;
    chip.spell(at, &mut bytes);
    Ok(bytes)
}

/// `reported` where the Z80 is spelled by these bytes.
fn compare(fixture: &mut Z80, at: u64, bytes: &[u8], reported: &str) -> Result<String, RowError> {
    let alloc = fixture.alloc;
    let spelled = spelled(alloc, fixture.chip()?, at)?;
    compared(alloc, &spelled, bytes, reported)
}

fn unspell(fixture: &mut Z80, bytes: &[u8], at: u64) -> Result<String, RowError> {
    let alloc = fixture.alloc;
    match Chip80::unspell(alloc, bytes, at, shared(alloc)?) {
        Ok(chip) => {
            fixture.chip = Some(chip);
            compare(fixture, at, bytes, "kept")
        }
        Err(Unspell::Rule { place }) => decimal_of(alloc, "refused ", place),
        Err(Unspell::NoMemory) => Err(RowError::Memory),
    }
}

/// Reads a Z80 of bytes: `kept` where it is spelled by the same bytes, or the offset at which they are refused.
/// `NoSuchLine` where the words are none.
pub fn state(fixture: &mut Z80, words: &str) -> Result<String, RowError> {
    let (at, text) = parted(words, ' ')?;
    let bytes = pieces(fixture.alloc, text)?;
    unspell(fixture, &bytes, number(at)?)
}

/// Whether the Z80 is spelled by the bytes that are wanted; `NoSuchName` where no Z80 is set up.
pub fn spell(fixture: &mut Z80, at: &str, wanted: &str) -> Result<String, RowError> {
    let bytes = pieces(fixture.alloc, wanted)?;
    compare(fixture, number(at)?, &bytes, wanted)
}
