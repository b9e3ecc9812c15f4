use chip_core::Event;
use row_lines::{RowError, parted, push, readable};
use std::alloc::{AllocError, Global};

/// The event that a text names: `announce 0`, `access 2` or `sample 1`.
pub(crate) fn event_of(text: &str) -> Result<Event, RowError> {
    let (kind, chip) = parted(text, ' ')?;
    let chip = readable(chip.parse::<u8>())?;
    match kind {
        "announce" => Ok(Event::Announce(chip)),
        "access" => Ok(Event::Perform(chip)),
        "sample" => Ok(Event::Sample(chip)),
        _ => Err(RowError::NoSuchLine),
    }
}

/// The events of a list, which commas part.
pub(crate) fn events_of(alloc: Global, text: &str) -> Result<Vec<Event>, RowError> {
    let mut list = Vec::new(alloc);
    for name in text.split(", ") {
        push(&mut list, event_of(name)?)?;
    }
    Ok(list)
}

/// The text that names an event.
pub(crate) fn event_text(alloc: Global, event: Event) -> Result<String, AllocError> {
    match event {
        Event::Announce(chip) => format!(in alloc; "announce {chip}"),
        Event::Perform(chip) => format!(in alloc; "access {chip}"),
        Event::Sample(chip) => format!(in alloc; "sample {chip}"),
    }
}
