/// Why an input is refused.
#[derive(Clone, Copy, PartialEq, Eq, Debug)]
pub enum InputFault {
    /// A session has no such frame.
    Far {
        /// The last frame that it has.
        last: u64,
    },
    /// The player's input of this frame was given already.
    Given {
        /// The buttons that were given.
        kept: u16,
    },
    /// A bit is set that is no button's.
    Buttons,
}
