ghost use Rattle.m68k_chip.specs.Validity.{Fits};

use m68k_chip::Chip68;
use md_word::{Answer68, Pins68, Request68};
use row_lines::RowError;

/// The interrupt pins of this level.
pub fn pins(level: &str) -> Result<Pins68, RowError> {
    match level {
        "0" => Ok(Pins68 { level: 0 }),
        "4" => Ok(Pins68 { level: 4 }),
        "6" => Ok(Pins68 { level: 6 }),
        _ => Err(RowError::NoSuchLine),
    }
}

/// The answer to an access whose read gives this value.
fn answer_to(request: &Request68, value: u16) -> Answer68
    ensures { Fits request.now result }
{
    let (value, cost) = match request {
        Request68::Read16(_) => (value, 0),
        Request68::Read8(_) => (value % 0x100, 0),
        Request68::Word(_) => (0, 34),
        _ => (0, 0),
    };
    Answer68 {
        value,
        transfer: None,
        cost,
    }
}

/// Takes the sample that is next: its cycle.
#[tactic(auto, unfolding(m68k_chip::specs::States::next_of))]
pub fn sample(chip: &mut Chip68, pins: Pins68) -> Option<u64> {
    let next = chip.next();
    if !next.sample || next.key.cycle >= 1 << 50 {
        return None;
    }
    chip.sample(pins);
    Some(next.key.cycle)
}

/// Takes the samples that are next below `end`: the cycle of the event after them, and whether it is a sample.
#[tactic(auto, unfolding(m68k_chip::specs::States::next_of))]
pub fn ahead(chip: &mut Chip68, pins: Pins68, end: u64) -> Option<(u64, bool)> {
    let next = chip.next();
    if !next.sample || next.key.cycle >= 1 << 50 || end > 1 << 50 {
        return None;
    }
    chip.sample_ahead(pins, end);
    let next = chip.next();
    Some((next.key.cycle, next.sample))
}

/// Answers the access that is next: its cycle and its request.
#[tactic(auto, unfolding(m68k_chip::specs::States::next_of))]
pub fn take(chip: &mut Chip68, value: u16) -> Option<(u64, Request68)> {
    let next = chip.next();
    if next.sample || next.key.cycle >= 1 << 50 {
        return None;
    }
    let request = chip.request();
    chip.answer(answer_to(&request, value));
    Some((next.key.cycle, request))
}

/// The address of the instruction that the next event begins, where it is a sample; its level is 0.
#[tactic(auto, unfolding(m68k_chip::specs::States::next_of))]
pub fn begun(chip: &Chip68) -> Option<u32> {
    if chip.next().sample {
        chip.begins(Pins68 { level: 0 })
    } else {
        None
    }
}
