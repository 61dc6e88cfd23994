//! `Damage`, what is damaged in a trace.
ghost use Rattle.std.specs.Prelude.{◌≡◌};
ghost use Rattle.er_damage.specs.Damaged.{has_damage};

use er_text::Lost;

/// What is damaged in a trace: for each kind of damage the line of its first place, if it has one.
#[derive(Clone, Copy, Debug, PartialEq, Eq)]
pub struct Damage {
    /// A step was refused: a thread took a lock that it had, say, or gave one up that it hadn't.
    pub refused: Option<u64>,
    /// A thread took a lock that another held, and not both to read only.
    pub held_twice: Option<u64>,
    /// The last line of the text has no LF, and may be cut.
    pub no_line_feed: Option<u64>,
    /// A text 3 has no line `end`, and the line is its last one.
    pub no_end: Option<u64>,
    /// The last comment says that events are lost.
    pub lost: Option<Lost>,
}

impl Damage {
    /// Whether there is any.
    pub fn is_any(&self) -> bool
        ensures { result ≡ has_damage self.now }
    {
        self.refused.is_some()
            || self.held_twice.is_some()
            || self.no_line_feed.is_some()
            || self.no_end.is_some()
            || self.lost.is_some()
    }
}
