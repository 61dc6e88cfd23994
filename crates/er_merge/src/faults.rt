//! Why reports can't be merged.
ghost use Rattle.std.specs.Prelude.{◌≡◌};
ghost use Rattle.er_merge.specs.Faults.{line_text, text_of, status_of};

/// What is wrong with a line of a report.
#[derive(Clone, Copy, Debug, PartialEq, Eq, Drop)]
pub enum LineFault {
    /// The first line doesn't say of which part the report is.
    NoPart,
    /// No report has such a line there.
    Foreign,
    /// The text ends before the line does, or before the totals.
    CutOff,
    /// The replay of the part stopped here.
    Stopped,
}

impl LineFault {
    /// The fault in words.
    fn text(self) -> &'static str
        ensures { result.now ≡ line_text self }
    {
        match self {
            LineFault::NoPart => "no report of a part",
            LineFault::Foreign => "no line of a report",
            LineFault::CutOff => "cut off",
            LineFault::Stopped => "stopped",
        }
    }
}

/// Why reports are not merged. Reports have numbers from 1, in the order in which they are given.
#[derive(Clone, Copy, Debug, PartialEq, Eq, Drop)]
pub enum MergeFault {
    /// The report of the first number has this fault on the line of the second.
    Line(u64, u64, LineFault),
    /// The report of this number is of another trace than the first one, of another number of parts, or was made otherwise.
    Other(u64),
    /// This part is given twice.
    Twice(u64),
    /// This part is missing.
    Missing(u64),
    /// The reports count more than a number of 64 bits holds.
    CountsTooLarge,
    /// There was no memory.
    Memory,
}

impl MergeFault {
    /// The exit status, and the fault in words.
    pub fn row(self) -> (u8, &'static str)
        ensures status { result.0 ≡ status_of self }
        ensures text { result.1.now ≡ text_of self }
    {
        match self {
            MergeFault::Line(_, _, LineFault::Stopped) => (3, "stopped"),
            MergeFault::Line(_, _, fault) => (2, fault.text()),
            MergeFault::Other(_) => (2, "another trace"),
            MergeFault::Twice(_) => (2, "given twice"),
            MergeFault::Missing(_) => (2, "missing"),
            MergeFault::CountsTooLarge => (3, "counts too large"),
            MergeFault::Memory => (3, "out of memory"),
        }
    }
}
