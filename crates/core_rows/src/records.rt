use md_word::{Entry, Key};
use std::alloc::{AllocError, Global};

/// A record of the journal: its cycle, the chip and the kind in decimal, the address and the value in hexadecimal.
pub fn record_text(alloc: Global, entry: &Entry) -> Result<String, AllocError> {
    format!(in alloc;
        "{} {} {} {:X} {:04X}",
        entry.key.cycle, entry.key.chip, entry.kind, entry.address, entry.value
    )
}

/// Keys, each as `CYCLE/CHIP`.
pub(crate) fn keys_text(alloc: Global, keys: &[Key]) -> Result<String, AllocError> {
    let mut text = String::new(alloc);
    for key in keys {
        if !text.is_empty() {
            text.push(' ')?;
        }
        text.push_str(&format!(in alloc; "{}/{}", key.cycle, key.chip)?)?;
    }
    Ok(text)
}
