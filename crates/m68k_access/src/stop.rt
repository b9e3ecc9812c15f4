use md_word::Request68;

/// Why an instruction goes no further.
///
/// Source: M68000 User's Manual, section 6.3.10, for odd addresses.
#[derive(Clone, Copy, PartialEq, Eq, Debug)]
pub enum Stop {
    /// This access waits for its answer.
    Ask(Request68),
    /// A word or long at an odd address, which is an address error.
    Odd {
        /// The address, of 32 bits.
        address: u32,
        /// Whether it was to be read.
        read: bool,
        /// How many accesses were answered before.
        used: usize,
    },
}
