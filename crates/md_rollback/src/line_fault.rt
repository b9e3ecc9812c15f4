/// Why a line of a script is refused.
#[derive(Clone, Copy, PartialEq, Eq, Debug)]
pub enum LineFault {
    /// It asks for nothing that there is.
    Unread,
    /// A session has no such frame.
    Far,
    /// The player's buttons of this frame were given.
    Given,
    /// A bit is set that is no button's.
    Buttons,
    /// The session went its window beyond the confirmed frames.
    Waiting,
    /// All frames of the session were made.
    Ended,
}
