//! What a line of a session's script asks for.

/// One of the two players: the local one has pad 1, the remote one pad 2.
#[derive(Clone, Copy, PartialEq, Eq, Debug)]
pub enum Player {
    Local,
    Remote,
}

/// What a line asks for.
#[derive(Clone, Copy, PartialEq, Eq, Debug)]
pub enum Line {
    /// That a player's buttons in a frame are given.
    Press(Player, u64, u16),
    /// That the next frame is made.
    Advance,
}
