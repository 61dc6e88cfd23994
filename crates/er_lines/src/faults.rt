//! What can be wrong with a text, and with a reading of it.
ghost use Rattle.std.specs.Prelude.{◌≡◌};
ghost use Rattle.er_lines.specs.Faults.{text_of};
ghost use Rattle.er_lines.specs.declared.faults.ReadFault.TheVariants.{Memory, Read};

use er_device::Failed;
use std::alloc::{AllocError, AllocFailed};

/// What is wrong with a line.
#[derive(Clone, Copy, Debug, PartialEq, Eq, Hash)]
pub enum TextKind {
    /// It has more than 1,024 bytes, its LF not counted.
    LineTooLong,
    /// It goes past the limit of the text's bytes.
    TextTooLong,
    /// It has a byte of 128 or more.
    NotAscii,
    /// It is the first line that isn't skipped, and isn't a header.
    NoHeader,
    /// A word isn't the name that its place asks for.
    BadName,
    /// The verb of an event, or an operand, isn't there.
    MissingOperand,
    /// The second word of an event isn't a verb of this text, or the first word of a rule is no sort of rule.
    BadVerb,
    /// There are more operands than the verb takes.
    ExtraOperand,
    /// A word isn't the number that its place asks for.
    BadNumber,
    /// A reuse is of more than 4,194,304 bytes.
    SizeTooLarge,
    /// An address is 2^48 or more, or a run of bytes ends past 2^48.
    AddressOutOfRange,
    /// An interrupt level is above 31.
    LevelTooHigh,
    /// A thread starts or joins itself.
    OwnThread,
    /// A thread is started that acts in a line before.
    AlreadyRunning,
    /// A line says something behind the line `end`.
    AfterEnd,
}

impl TextKind {
    /// The fault in words.
    pub fn text(self) -> &'static str
        ensures { result.now ≡ text_of self }
    {
        match self {
            TextKind::LineTooLong => "line too long",
            TextKind::TextTooLong => "text too long",
            TextKind::NotAscii => "not ascii",
            TextKind::NoHeader => "no header",
            TextKind::BadName => "bad name",
            TextKind::MissingOperand => "missing operand",
            TextKind::BadVerb => "bad verb",
            TextKind::ExtraOperand => "extra operand",
            TextKind::BadNumber => "bad number",
            TextKind::SizeTooLarge => "size too large",
            TextKind::AddressOutOfRange => "address out of range",
            TextKind::LevelTooHigh => "level too high",
            TextKind::OwnThread => "own thread",
            TextKind::AlreadyRunning => "already running",
            TextKind::AfterEnd => "after end",
        }
    }
}

/// The first faulty line of a text.
#[derive(Clone, Copy, Debug, PartialEq, Eq, Hash)]
pub struct TextFault {
    /// The number of the line, from 1. Skipped lines count.
    pub line: u64,
    /// The first fault of the line.
    pub kind: TextKind,
}

/// Why a reading gave no trace, or no rules.
#[derive(Clone, Copy, Debug, PartialEq, Eq, Hash)]
pub enum ReadFault {
    /// The text has this fault.
    Text(TextFault),
    /// There was no memory.
    Memory,
    /// The reader failed.
    Read,
}

/// A fault of this line.
pub fn fault_at(line: u64, kind: TextKind) -> ReadFault
    ensures { result ≡ ReadFault.Text (record { line = line; kind = kind }) }
{
    ReadFault::Text(TextFault { line, kind })
}

impl From<AllocError> for ReadFault {
    ghost from_gives = { λ _ fault. fault ≡ Memory };

    fn from(_refused: AllocError) -> ReadFault {
        ReadFault::Memory
    }
}

impl<T: Drop> From<AllocFailed<T>> for ReadFault {
    ghost from_gives = { λ _ fault. fault ≡ Memory };

    fn from(_refused: AllocFailed<T>) -> ReadFault {
        ReadFault::Memory
    }
}

impl From<Failed> for ReadFault {
    ghost from_gives = { λ _ fault. fault ≡ Read };

    fn from(_failed: Failed) -> ReadFault {
        ReadFault::Read
    }
}
