//! Who sees how far a replay has come.

/// How far a replay has come.
#[derive(Clone, Copy, Debug, PartialEq, Eq)]
pub struct Progress {
    /// How many bytes were read.
    pub bytes: u64,
    /// How many steps were answered.
    pub steps: u64,
    /// How many of these steps are races that have a line.
    pub races: u64,
}

/// Sees how far a replay has come. It gets numbers and returns nothing, so it can't change what the replay comes to.
pub trait Watch {
    /// Called once the steps of a batch of lines were answered.
    fn come_to(&mut self, progress: Progress);

    /// Called once the text was replayed or a fault was found, before the report is written.
    fn end(&mut self);
}

/// Sees a replay and does nothing.
#[derive(Drop)]
pub struct Unwatched;

impl Watch for Unwatched {
    fn come_to(&mut self, _progress: Progress) {}

    fn end(&mut self) {}
}
