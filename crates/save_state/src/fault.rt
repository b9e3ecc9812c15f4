/// Why bytes are no saved state of a cartridge.
#[derive(Clone, Copy, PartialEq, Eq, Debug)]
pub enum StateFault {
    /// They are as long as no state, or begin with another magic, or a field breaks its rule.
    Form {
        /// The lesser of the two lengths, or 0, or where the first such field is.
        place: u64,
    },
    /// They are a state of another cartridge.
    OtherCart {
        /// The SHA-256 of the cartridge's image that the state keeps.
        kept: [u8; 32],
        /// That of the given cartridge's image.
        given: [u8; 32],
    },
    NoMemory,
}
