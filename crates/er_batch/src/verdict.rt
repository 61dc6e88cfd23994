//! What a replay comes to.

/// What a replay came to.
#[derive(Clone, Copy, Debug, PartialEq, Eq)]
pub enum Verdict {
    /// The whole trace was replayed, and no race is printed.
    Clean,
    /// The whole trace was replayed, and some race is printed.
    Races,
    /// The replay stopped for want of room.
    Stopped,
}
