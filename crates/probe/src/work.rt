//! The row at work: its words, which are read from left to right so that each kind of value takes the next one, and what is written of it.
use er_detector::Detector;
use er_event::{
    Event, Kind, Level, LockId, Mode, PageRange, Refusal, Site, Step, Sync, ThreadId, Word,
    WordRange,
};
use er_replay::Machine;
use er_seat::Seat;
use er_shard::Shard;
use er_table::LocksetTable;
use std::alloc::{AllocError, AllocFailed, Global};
use std::fmt::Write;
use std::io;
use std::io::ErrorKind;
use std::rt::Runtime;
use std::sync::{MutexGuard, Wait};

/// Why a call isn't made, or the row that asks for it isn't one.
#[derive(Clone, Copy, PartialEq, Eq)]
pub(crate) enum Fault {
    /// The row asks for nothing.
    BadRow,
    /// A call was refused, or there was no memory.
    Refused(Refusal),
    /// A reuse stopped before this address.
    Stopped(u64, Refusal),
    /// A thread, the input, the output or the clock failed.
    System,
}

/// What is found of a row, or what a call comes to.
pub(crate) type Found<T> = Result<T, Fault>;

/// What a call comes to that answers nothing.
pub(crate) type Made = Found<()>;

/// What a call comes to whose answer was put so.
pub(crate) fn made(put: Result<(), AllocError>) -> Made {
    Ok(put?)
}

impl From<Refusal> for Fault {
    fn from(why: Refusal) -> Fault {
        Fault::Refused(why)
    }
}

impl From<AllocError> for Fault {
    fn from(_refused: AllocError) -> Fault {
        Fault::Refused(Refusal::OutOfMemory)
    }
}

impl<T: Drop> From<AllocFailed<T>> for Fault {
    fn from(_refused: AllocFailed<T>) -> Fault {
        Fault::Refused(Refusal::OutOfMemory)
    }
}

impl From<io::Error> for Fault {
    fn from(error: io::Error) -> Fault {
        match error.kind() {
            ErrorKind::OutOfMemory => AllocError.into(),
            _ => Fault::System,
        }
    }
}

// How many bytes each text has room for, so that none wants memory while calls are made.
const ROOM: usize = 1 << 16;

/// The words of a call, and the texts of its row.
#[derive(Drop)]
pub(crate) struct Work<'r> {
    words: &'r str,
    /// Those that aren't read yet.
    pub(crate) left: &'r str,
    // How often the row was made before, and how much its locks and its addresses are raised.
    nth: u64,
    by: u64,
    /// A reuse goes on at this address.
    pub(crate) from: u64,
    // So many of its bytes are done.
    done: u64,
    /// The answer to the call.
    pub(crate) answer: String,
    /// What there was before it.
    pub(crate) note: String,
    // The latest answer, how often it came, and those before it.
    latest: String,
    count: u32,
    line: String,
}

impl<'r> Work<'r> {
    pub(crate) fn new(alloc: Global) -> Result<Work<'r>, AllocError> {
        Ok(Work {
            words: "",
            left: "",
            nth: 0,
            by: 0,
            from: 0,
            done: 0,
            answer: String::with_capacity(alloc, ROOM)?,
            note: String::with_capacity(alloc, ROOM)?,
            latest: String::with_capacity(alloc, ROOM)?,
            count: 0,
            line: String::with_capacity(alloc, ROOM)?,
        })
    }

    /// Begins with a row: how often it is made, and how much that raises it each time. `times COUNT STEP` says so before its other words.
    pub(crate) fn begin(&mut self, row: &'r str) -> Found<(u32, u64)> {
        self.left = row;
        let times = match self.take("times") {
            Ok(()) => (self.count()?, self.number()?),
            Err(_) => (1, 0),
        };
        self.words = self.left;
        match times {
            (0, _) => Err(Fault::BadRow),
            _ => Ok(times),
        }
    }

    /// Begins with the call that the row asks for when it was made `nth` times before.
    pub(crate) fn raise(&mut self, nth: u32, step: u64) -> Made {
        self.nth = u64::from(nth);
        self.by = step.checked_mul(self.nth).ok_or(Fault::BadRow)?;
        self.from = 0;
        self.rewind();
        Ok(())
    }

    /// Begins with the call once more.
    pub(crate) fn rewind(&mut self) {
        self.left = self.words;
        self.done = 0;
        self.answer.clear();
    }

    pub(crate) fn say(&mut self, text: &str) -> Made {
        Ok(self.answer.push_str(text)?)
    }

    /// Adds the answer to the line. Equal ones that follow one another are written once, with their count.
    pub(crate) fn add_answer(&mut self) -> Result<(), AllocError> {
        if self.count == 0 || self.latest != self.answer {
            self.add_latest()?;
            self.latest.push_str(self.answer.as_str())?;
        }
        self.count = self.count.saturating_add(1);
        Ok(())
    }

    fn add_latest(&mut self) -> Result<(), AllocError> {
        if !self.line.is_empty() {
            self.line.push_str(", ")?;
        }
        self.line.push_str(self.latest.as_str())?;
        if self.count > 1 {
            write!(self.line, " x{}", self.count)?;
        }
        self.latest.clear();
        self.count = 0;
        Ok(())
    }

    /// Prints the line, and begins the next one.
    pub(crate) fn print_line<R: Runtime>(&mut self, rt: &R) -> Made {
        self.add_latest()?;
        rt.println(self.line.as_str())?;
        self.line.clear();
        Ok(())
    }

    pub(crate) fn next(&mut self) -> Found<&'r str> {
        let left = self.left.trim_start();
        let (first, left) = left.split_once(' ').unwrap_or((left, ""));
        self.left = left.trim_start();
        (!first.is_empty()).then_some(first).ok_or(Fault::BadRow)
    }

    pub(crate) fn end(&self) -> Made {
        self.left.is_empty().then_some(()).ok_or(Fault::BadRow)
    }

    /// This word. Nothing is read where it is another.
    pub(crate) fn take(&mut self, word: &str) -> Made {
        let here = self.left;
        if self.next()? == word {
            return Ok(());
        }
        self.left = here;
        Err(Fault::BadRow)
    }

    /// A number: decimal, or hexadecimal behind `0x`.
    pub(crate) fn number(&mut self) -> Found<u64> {
        number_of(self.next()?)
    }

    /// A decimal number of 32 bits.
    pub(crate) fn count(&mut self) -> Found<u32> {
        count_of(self.next()?)
    }

    /// The place of a detector, `a` or `b`.
    pub(crate) fn side(&mut self) -> Found<usize> {
        match self.next()? {
            "a" => Ok(0),
            "b" => Ok(1),
            _ => Err(Fault::BadRow),
        }
    }

    /// A shard: the place of its detector, and its number there.
    pub(crate) fn shard(&mut self) -> Found<(usize, u32)> {
        Ok((self.side()?, self.count()?))
    }

    pub(crate) fn thread(&mut self) -> Found<ThreadId> {
        match self.count()? {
            number if number < 1 << 30 => Ok(ThreadId::new(number)),
            _ => Err(Fault::BadRow),
        }
    }

    pub(crate) fn lock(&mut self) -> Found<LockId> {
        let by = u32::try_from(self.by).ok().ok_or(Fault::BadRow)?;
        let number = lock_of(self.next()?)?.number().checked_add(by);
        Ok(LockId::new(number.ok_or(Fault::BadRow)?))
    }

    pub(crate) fn kind(&mut self) -> Found<Kind> {
        kind_of(self.next()?)
    }

    fn mode(&mut self) -> Found<Mode> {
        Ok(match self.kind()? {
            Kind::Read => Mode::Read,
            Kind::Write => Mode::Write,
        })
    }

    /// A site by its number, or the missing one where there is no number.
    fn site(&mut self) -> Site {
        let here = self.left;
        match self.count() {
            Ok(number) => Site::new(number),
            Err(_) => {
                self.left = here;
                Site::MISSING
            }
        }
    }

    /// The ticket of an entry, one more each time.
    pub(crate) fn ticket(&mut self) -> Found<u64> {
        self.number()?.checked_add(self.nth).ok_or(Fault::BadRow)
    }

    fn address(&mut self) -> Found<u64> {
        let address = self.number()?.checked_add(self.by).ok_or(Fault::BadRow)?;
        self.done = self.from.saturating_sub(address);
        Ok(address.max(self.from))
    }

    /// The word of an address.
    pub(crate) fn word(&mut self) -> Found<Word> {
        Ok(Word::of_address(self.address()?)?)
    }

    /// The words of an address and a number of bytes, of which there must be some.
    pub(crate) fn range(&mut self) -> Found<WordRange> {
        let address = self.address()?;
        let size = self.number()?.saturating_sub(self.done);
        WordRange::of_bytes(address, size)?.ok_or(Fault::BadRow)
    }

    /// What such a range has of its first page.
    pub(crate) fn part(&mut self) -> Found<PageRange> {
        let range = self.range()?;
        match range.parts() {
            0 => Err(Fault::BadRow),
            _ => Ok(range.part(0)),
        }
    }

    /// What a call of a thread does. A reuse is that of its first page.
    pub(crate) fn event(&mut self) -> Found<Event> {
        Ok(match self.next()? {
            "acquire" => Event::Acquire(self.lock()?, self.mode()?),
            "release" => Event::Release(self.lock()?, self.mode()?),
            "ignore-on" => Event::IgnoreOn,
            "ignore-off" => Event::IgnoreOff,
            "level" => Event::Level(Level::of_number(self.number()?)?),
            "start" => Event::Sync(Sync::Start(self.thread()?)),
            "join" => Event::Sync(Sync::Join(self.thread()?)),
            "signal" => Event::Sync(Sync::Signal(self.lock()?)),
            "await" => Event::Sync(Sync::Await(self.lock()?)),
            "reuse" => Event::Reuse(self.part()?),
            "show" => Event::Show(self.word()?),
            kind => Event::Access(kind_of(kind)?, self.word()?, self.site()),
        })
    }
}

pub(crate) fn number_of(word: &str) -> Found<u64> {
    let number = match word.strip_prefix("0x") {
        Some(digits) => u64::from_str_radix(digits, 16).ok(),
        None => word.parse::<u64>().ok(),
    };
    number.ok_or(Fault::BadRow)
}

pub(crate) fn count_of(word: &str) -> Found<u32> {
    word.parse::<u32>().ok().ok_or(Fault::BadRow)
}

fn kind_of(word: &str) -> Found<Kind> {
    match word {
        "read" => Ok(Kind::Read),
        "write" => Ok(Kind::Write),
        _ => Err(Fault::BadRow),
    }
}

/// A lock by its number, or that of a level: `level-1` to `level-31`.
pub(crate) fn lock_of(word: &str) -> Found<LockId> {
    let number = match word.strip_prefix("level-") {
        Some(level) => LockId::BELOW_LEVELS.checked_add(count_of(level)?),
        None => Some(count_of(word)?),
    };
    Ok(LockId::new(number.ok_or(Fault::BadRow)?))
}

/// Detectors, of which the first is `a`. Each is there until it is settled.
#[derive(Drop)]
pub(crate) struct Detectors<'t> {
    pub(crate) list: Vec<Option<Detector<'t>>>,
}

impl<'t> Detectors<'t> {
    /// The one at a place.
    pub(crate) fn at(&self, side: usize) -> Found<&Detector<'t>> {
        match self.list.get(side) {
            Some(Some(detector)) => Ok(detector),
            _ => Err(Fault::BadRow),
        }
    }

    /// A shard of one of them, under its lock.
    pub(crate) fn shard<R: Wait>(
        &self,
        rt: &R,
        (side, number): (usize, u32),
    ) -> Found<MutexGuard<'_, Shard<'t>>> {
        let detector = self.at(side)?;
        if number < detector.config().shards {
            Ok(detector.shard(rt, number))
        } else {
            Err(Fault::BadRow)
        }
    }
}

/// Detectors over one table and their seats, each of which is there until it is settled, and a machine with the list of its steps.
#[derive(Drop)]
pub(crate) struct World<'t> {
    pub(crate) table: &'t LocksetTable,
    pub(crate) detectors: Detectors<'t>,
    pub(crate) seats: Vec<Option<Seat>>,
    pub(crate) machine: Machine<'t>,
    pub(crate) steps: Vec<Step>,
}

/// A table that takes so many sets.
pub(crate) fn table_of(alloc: Global, sets: u32) -> Found<LocksetTable> {
    match sets {
        1..=1_048_576 => Ok(LocksetTable::new(alloc, sets)?),
        _ => Err(Fault::BadRow),
    }
}
