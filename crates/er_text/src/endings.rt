//! How a text ended.
ghost use Rattle.std.specs.Prelude.{◌≡◌};
ghost use Rattle.er_text.specs.Ending.{lacks_end, is_of_third, lost_in, lost_behind, comment_past, if_any_lost, lost_if};

use crate::stages::Stage;
use er_lines::{is_comment, split_at_space, value_in};

/// How a text ended that was read to its end.
#[derive(Clone, Copy, Debug, PartialEq, Eq)]
pub struct Ending {
    /// How many lines it has. Skipped lines count.
    pub lines: u64,
    /// Whether its last line lacks its LF.
    pub is_cut: bool,
    /// Whether it is a text 3.
    pub is_text_3: bool,
    /// Whether it is a text 3 without a line `end`.
    pub is_open: bool,
    /// What its last comment says of lost events: none unless it is `# incomplete: M events, N lost`, and N isn't 0.
    pub lost: Option<Lost>,
}

/// A comment of a trace by which events are lost.
#[derive(Clone, Copy, Debug, PartialEq, Eq)]
pub struct Lost {
    /// The number of the comment's line, from 1.
    pub line: u64,
    /// How many events are lost.
    pub events: u64,
}

impl Ending {
    /// How many events are lost, as a report says: by the last comment of a text 3. None of another text, or if it says of none.
    pub fn lost_events(&self) -> Option<u64>
        ensures { result ≡ lost_if self.now.is_text_3 self.now.lost }
    {
        match self.lost {
            Some(lost) if self.is_text_3 => Some(lost.events),
            _ => None,
        }
    }
}

/// Whether a text at this stage is a text 3 that has not come to its line `end`.
pub(crate) fn lacks_end(stage: Stage) -> bool
    ensures { result ≡ lacks_end stage }
{
    match stage {
        Stage::Events(version) => version.is_third(),
        Stage::Front | Stage::Ended => false,
    }
}

/// Whether a text at this stage is a text 3.
pub(crate) fn is_of_third(stage: Stage) -> bool
    ensures { result ≡ is_of_third stage }
{
    stage == Stage::Ended || lacks_end(stage)
}

/// How many events are lost by what follows the words `# incomplete:`.
fn lost_behind(bytes: &[u8]) -> u64
    ensures { result ≡ lost_behind bytes.now }
{
    let (recorded, rest) = split_at_space(bytes);
    let (events, rest) = split_at_space(rest);
    let (lost, last) = split_at_space(rest);
    if value_in(10, recorded).is_some()
        && events == b"events,".as_slice()
        && last == b"lost".as_slice()
    {
        value_in(10, lost).unwrap_or(0)
    } else {
        0
    }
}

/// How many events are lost by a comment.
fn lost_in(comment: &[u8]) -> u64
    ensures { result ≡ lost_in comment.now }
{
    let (mark, rest) = split_at_space(comment);
    let (word, rest) = split_at_space(rest);
    if mark == b"#".as_slice() && word == b"incomplete:".as_slice() {
        lost_behind(rest)
    } else {
        0
    }
}

/// What the last comment says once this line is past, by what the one before it says: 0 events are lost if it says nothing of them.
pub(crate) fn comment_past(last: Option<Lost>, line: u64, bytes: &[u8]) -> Option<Lost>
    ensures { result ≡ comment_past last line bytes.now }
{
    if !is_comment(bytes) {
        return last;
    }
    let events = lost_in(bytes);
    Some(Lost { line, events })
}

/// The same comment, if some events are lost by it.
pub(crate) fn if_any_lost(comment: Option<Lost>) -> Option<Lost>
    ensures { result ≡ if_any_lost comment }
{
    comment.filter(|lost| lost.events > 0)
}
