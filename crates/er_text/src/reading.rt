//! Traces, line by line, and batch by batch.
ghost use Rattle.std.specs.Prelude.{◌≡◌, ◌+◌, ◌++◌, ◌<◌, ◌≤◌, ◌^◌, drop, length, OnOk, IfOk, IfSome, IfErr, IsErrOf, IsTrue, Ok, Err, true, false, Option, ℕ, List, [], Some, None};
ghost use Rattle.er_device.specs.Device.{inner_of, has_failed, taken_of};
ghost use Rattle.er_lines.specs.Lines.{Placed, bytes_past_limit, is_comment, lines_of, placed_from, AreWhole};
ghost use Rattle.er_text.specs.Trace.{Tells};
ghost use Rattle.er_lines.specs.Faults.{HasFailedBy};
ghost use Rattle.er_trace.specs.Trace.{Recording, no_steps};
ghost use Rattle.er_event.specs.declared.steps.Step.{Step};
ghost use Rattle.er_lines.specs.declared.ready.NameKind.{NameKind as Names};
ghost use Rattle.er_trace.specs.Names.{NameTable};
ghost use Rattle.er_text.specs.Named.{Grows};
ghost use Rattle.er_text.specs.Batches.{HasRead, GivesBatch, batch_steps};
ghost use Rattle.er_text.specs.Pieces.{StaysAt};
ghost use Rattle.er_text.specs.Places.{no_tail};
ghost use Rattle.er_text.specs.Ending.{KnowsEnd, IsEndingOf, comment_past};
ghost use Rattle.er_text.specs.Inner.Ahead.{AreEndedOn, AreReadOn};
ghost use Rattle.er_text.specs.Inner.Endings.{KeepsTail, PassesTail, BatchesTail};
ghost use Rattle.er_lines.specs.Lending.{taken_by, lines_from, lines_left};
ghost use Rattle.er_lines.specs.Reading.{Continues, Reads, Turns};
ghost use Rattle.er_lines.specs.Touches.{StaysKnown};
ghost use Rattle.er_text.specs.Inner.FastPath.{ReadsUsual};
ghost use Rattle.er_text.specs.Inner.Numbers.{AreRight};
ghost use Rattle.er_text.specs.Inner.Parsing.{event_line};
ghost use Rattle.er_text.specs.Inner.Traces.{Progress, progress, at_front, at_line, add_parsed, plain_at, read_content, read_text, IsOutcome, Batches};

use crate::Done;
use crate::adding::add_steps;
use crate::endings::{Ending, Lost, comment_past, if_any_lost, is_of_third, lacks_end};
use crate::fast_path::add_usual;
use crate::numbers::KnownNumbers;
use crate::parsing::{ParsedLine, is_end, parse, version_of};
use crate::ready::add_ready;
use crate::stages::{IdleThreads, Stage, is_known_thread};
use crate::verbs::Version;
use er_device::Device;
use er_lines::{
    ByText, LineReader, ReadFault, Shortcut, TextKind, fault_at, is_ascii, line_len,
    says_something, split_words,
};
use er_trace::{NameKeys, Trace};
use std::alloc::{AllocError, Global};
use std::io::Read;
use std::marker::Model;
use std::mem;

/// The most bytes that a line has, without its LF.
pub(crate) const LINE: usize = 1024;

/// A batch ends behind the line that brings its trace to this many steps.
const BATCH_STEPS: usize = 131_072;

/// What the lines so far make known: the stage of the text, the threads that are named but don't act yet, and what the last comment says.
#[derive(Drop)]
pub(crate) struct Header {
    pub(crate) stage: Stage,
    pub(crate) idle: IdleThreads,
    pub(crate) comment: Option<Lost>,
}

impl Header {
    /// At this stage, before any line.
    pub(crate) fn new(alloc: Global, stage: Stage) -> Header
        ensures stage { result.stage ≡ stage }
        ensures idle { result.idle ≡ [] }
        ensures comment { result.comment ≡ None }
    {
        Header {
            stage,
            idle: IdleThreads::new(alloc),
            comment: None,
        }
    }

    /// Adds the steps of an event line, unless it can't come behind the lines before it.
    fn add(&mut self, trace: &mut Trace, line: u64, parsed: &ParsedLine<'_>) -> Done
        ensures read { Reads line (at_line (line + 1) self.new.stage self.new.idle trace.new) result (add_parsed line (at_line line self.old.stage self.old.idle trace.old) (Ok (event_line parsed.now))) }
        ensures comment { self.new.comment ≡ self.old.comment }
        ensures failed { IsErrOf result ReadFault.Read → ⊥ }
    {
        if let Some(kind) = self.idle.fault(trace.names(), parsed) {
            return Err(fault_at(line, kind));
        }
        let other = parsed.other_thread();
        let is_known = is_known_thread(trace.names(), other);
        let thread = add_steps(trace, line, parsed)?;
        self.idle.remove(thread);
        self.idle.add_new(trace.names(), other, is_known)?;
        Ok(())
    }

    /// Reads a line in the limits, in whatever form.
    fn read(&mut self, trace: &mut Trace, line: u64, bytes: &[u8]) -> Done
        ensures read { Reads line (at_line (line + 1) self.new.stage self.new.idle trace.new) result (plain_at (at_line line self.old.stage self.old.idle trace.old) line bytes.now) }
        ensures comment { OnOk result (self.new.comment ≡ comment_past self.old.comment line bytes.now) }
        ensures failed { IsErrOf result ReadFault.Read → ⊥ }
    {
        if !is_ascii(bytes) {
            return Err(fault_at(line, TextKind::NotAscii));
        }
        let words = split_words(bytes);
        if !says_something(words.first, bytes) {
            self.comment = comment_past(self.comment, line, bytes);
            return Ok(());
        }
        match self.stage {
            Stage::Front => {
                let Some(version) = version_of(&words) else {
                    return Err(fault_at(line, TextKind::NoHeader));
                };
                self.stage = Stage::Events(version);
                Ok(())
            }
            Stage::Events(version) if is_end(version, &words) => {
                self.stage = Stage::Ended;
                Ok(())
            }
            Stage::Events(version) => match parse(version, &words) {
                Err(kind) => Err(fault_at(line, kind)),
                Ok(parsed) => self.add(trace, line, &parsed),
            },
            Stage::Ended => Err(fault_at(line, TextKind::AfterEnd)),
        }
    }

    /// Reads a line behind the header if it has its usual form and its thread is known, and says whether it did. With `rare` it reads a show, a reuse,
    /// a level or a bracket, and its thread must be among the recent names. Without, it reads an access or a lock event.
    #[inline(always)]
    fn read_usual(
        &mut self,
        trace: &mut Trace,
        line: u64,
        bytes: &[u8],
        rare: bool,
    ) -> Result<bool, AllocError>
        ensures stage { self.new.stage ≡ self.old.stage }
        ensures comment { self.new.comment ≡ self.old.comment }
        ensures no_comment { IfOk result (λ read. IsTrue read → is_comment bytes.now ≡ false) }
        ensures read { ReadsUsual line self.old.stage bytes.now self.old.idle self.new.idle trace.old trace.new result }
    {
        let Stage::Events(version) = self.stage else {
            return Ok(false);
        };
        if !add_usual(trace, version, line, bytes, rare)? {
            return Ok(false);
        }
        self.idle.remove_last(trace.steps());
        Ok(true)
    }

    /// Reads a line in the limits that `read_usual` didn't take without `rare`. It is a call of its own, as `add_usual` says.
    #[inline(never)]
    fn read_other(&mut self, trace: &mut Trace, line: u64, bytes: &[u8]) -> Done
        ensures read { Reads line (at_line (line + 1) self.new.stage self.new.idle trace.new) result (plain_at (at_line line self.old.stage self.old.idle trace.old) line bytes.now) }
        ensures comment { OnOk result (self.new.comment ≡ comment_past self.old.comment line bytes.now) }
        ensures failed { IsErrOf result ReadFault.Read → ⊥ }
    {
        if self.read_usual(trace, line, bytes, true)? {
            return Ok(());
        }
        self.read(trace, line, bytes)
    }

    /// Reads a line in the limits. A line in its usual form is ASCII, and so the test is for the others alone.
    #[inline(always)]
    pub(crate) fn read_plain(&mut self, trace: &mut Trace, line: u64, bytes: &[u8]) -> Done
        ensures read { Reads line (at_line (line + 1) self.new.stage self.new.idle trace.new) result (plain_at (at_line line self.old.stage self.old.idle trace.old) line bytes.now) }
        ensures comment { OnOk result (self.new.comment ≡ comment_past self.old.comment line bytes.now) }
        ensures failed { IsErrOf result ReadFault.Read → ⊥ }
    {
        if self.read_usual(trace, line, bytes, false)? {
            return Ok(());
        }
        self.read_other(trace, line, bytes)
    }
}

/// Whether lines may follow those of a batch.
#[derive(Clone, Copy, Debug, PartialEq, Eq)]
pub enum Batch {
    /// There may be more lines.
    More,
    /// The text has ended, and its header was there.
    End,
}

/// A reader of a trace text that gives its steps batch by batch, so that nobody has to keep all of them.
///
/// Each call of [`next_batch`](TraceReader::next_batch) takes the same device and the same trace. Between two calls the caller may
/// [`clear`](Trace::clear) the trace, which keeps the names, whose numbers later steps use.
#[derive(Drop)]
pub struct TraceReader {
    pub(crate) lines: LineReader,
    pub(crate) header: Header,
    pub(crate) cut: bool,
    numbers: KnownNumbers,
}

impl Model for TraceReader {
    ghost use Rattle.er_text.specs.Places.{Reached, Tail};

    ghost Value = { Reached };

    ghost view = { λ r. record { place = r.lines; stage = r.header.stage; idle = r.header.idle; tail = record { cut = r.cut; comment = r.header.comment } } };
}

impl TraceReader {
    /// A reader in front of a text of at most `limit` bytes, with room for `size` bytes that are read ahead: see [`fill`](TraceReader::fill).
    pub fn with_window(alloc: Global, limit: u64, size: usize) -> Result<TraceReader, AllocError>
        requires limit { limit ≤ 2 ^ 62 }
        requires size { (65536 ≤ size) × (size ≤ 2 ^ 30) }
        ensures limit { IfOk result (λ r. r.place.limit ≡ limit) }
        ensures number { IfOk result (λ r. r.place.number ≡ 1) }
        ensures start { IfOk result (λ r. r.place.start ≡ 0) }
        ensures ahead { IfOk result (λ r. length r.place.ahead ≡ 0) }
        ensures stage { IfOk result (λ r. r.stage ≡ Stage.Front) }
        ensures tail { IfOk result (λ r. r.tail ≡ no_tail) }
        ensures starts { IfOk result (λ r. (text : List ℕ) → HasRead text [] [] [] r (Some text) no_steps) }
    {
        Ok(TraceReader {
            lines: LineReader::new(alloc, limit, size)?,
            header: Header::new(alloc, Stage::Front),
            cut: false,
            numbers: KnownNumbers::new(alloc),
        })
    }

    /// Takes out the numbers, of which none is known from then on.
    fn take_numbers(&mut self) -> KnownNumbers
        ensures right { (names : Names → ℕ → List ℕ) (table : NameTable) → AreRight names table result }
        ensures same { self.new ≡ self.old }
    {
        let none = KnownNumbers::new(self.numbers.alloc());
        let mut numbers = mem::replace(&mut self.numbers, none);
        numbers.forget();
        numbers
    }

    /// Reads on until the window is full, the limit is reached, or the text ends. It passes over no line: those that were read ahead are
    /// the next ones.
    pub fn fill<R: Read, S: Shortcut<R>>(&mut self, reader: &mut Device<R>, shortcut: &S) -> Done
        requires { has_failed reader.old ≡ false }

        // What was read of a text stays read, and what is left of it is left.
        ensures told { (text : List ℕ) (steps : List Step) (lines sites : List ℕ) (trace : Recording)
            → HasRead text steps lines sites self.old (R.remaining (inner_of reader.old)) trace
            → OnOk result (HasRead text steps lines sites self.new (R.remaining (inner_of reader.new)) trace) }

        ensures same { StaysAt self.old self.new }
        ensures fault { IfErr result (λ why. why ≡ ReadFault.Read) }
        ensures within { self.new.place.start ≤ self.new.place.limit }
        ensures failed { HasFailedBy (has_failed reader.new) result }
        ensures taken { taken_of reader.new + taken_by self.old.place ≤ taken_of reader.old + taken_by self.new.place }
        ensures most { taken_by self.new.place ≤ self.new.place.limit + bytes_past_limit }
        ensures touches { StaysKnown (S.touches (inner_of reader.old)) (S.touches (inner_of reader.new)) }
    {
        self.lines.fill(reader, shortcut)?;
        Ok(())
    }

    /// The whole lines that were read ahead, each with its LF, and none of them if they go past the limit.
    pub fn ahead(&self) -> &[u8]
        ensures front { (more : List ℕ) × (self.now.place.ahead ≡ result.now ++ more) }
        ensures whole { AreWhole result.now }
        ensures within { self.now.place.start + length result.now ≤ self.now.place.limit }
    {
        self.lines.ahead()
    }

    /// Reads the next line, or those of an access that the shortcut has ready in a text of the last version, and says whether there was one.
    #[inline(always)]
    fn next_line<R: Read, S: Shortcut<R>>(
        &mut self,
        reader: &mut Device<R>,
        shortcut: &S,
        trace: &mut Trace,
        numbers: &mut KnownNumbers,
    ) -> Result<bool, ReadFault>
        requires open { has_failed reader.old ≡ false }
        requires right { AreRight (S.names_of (inner_of reader.old)) trace.old.names numbers.old }
        ensures right { OnOk result (AreRight (S.names_of (inner_of reader.new)) trace.new.names numbers.new) }
        ensures turn { Turns self.old.place.limit read_content (lines_left self.old.place (R.remaining (inner_of reader.old)))
            (lines_left self.new.place (R.remaining (inner_of reader.new))) (progress self.old trace.old) (progress self.new trace.new) result }
        ensures tail { PassesTail (lines_left self.old.place (R.remaining (inner_of reader.old))) (lines_left self.new.place (R.remaining (inner_of reader.new))) self.old.tail self.new.tail result }
        ensures grows { OnOk result (Grows trace.old trace.new) }
        ensures limit { self.new.place.limit ≡ self.old.place.limit }
        ensures more { IfOk result (λ more. more ≡ true → self.old.place.start < self.new.place.start) }
        ensures within { self.new.place.start ≤ self.new.place.limit }
        ensures failed { HasFailedBy (has_failed reader.new) result }
        ensures taken { taken_of reader.new + taken_by self.old.place ≤ taken_of reader.old + taken_by self.new.place }
        ensures most { taken_by self.new.place ≤ self.new.place.limit + bytes_past_limit }
        ensures touches { StaysKnown (S.touches (inner_of reader.old)) (S.touches (inner_of reader.new)) }
    {
        let line = self.lines.number();
        let is_asked = self.header.stage == Stage::Events(Version::Three);
        let Some(ready) = self.lines.take(reader, shortcut, is_asked) else {
            let Some(front) = self.lines.find(reader, shortcut)? else {
                return Ok(false);
            };
            let bytes = self.lines.bytes(front);
            self.header.read_plain(trace, line, bytes)?;
            self.lines.pass(front);
            self.cut = !front.is_ended();
            return Ok(true);
        };
        add_ready(trace, numbers, reader.inner(), shortcut, line, ready)?;
        self.header.idle.remove_last(trace.steps());
        self.cut = false;
        Ok(true)
    }

    /// What was read, at the end of the text: a trace, if there was a header.
    fn finish(&self) -> Done
        ensures ok { OnOk result (self.now.stage ≡ Stage.Front → ⊥) }
        ensures fault { IfErr result (λ e. (self.now.stage ≡ Stage.Front) × (e ≡ ReadFault.Text (record { line = self.now.place.number; kind = TextKind.NoHeader }))) }
    {
        match self.header.stage {
            Stage::Events(_) | Stage::Ended => Ok(()),
            Stage::Front => Err(self.lines.fault(TextKind::NoHeader)),
        }
    }

    /// Reads all lines that are left of a text.
    fn read_left<R: Read>(&mut self, reader: &mut Device<R>, trace: &mut Trace) -> Done
        requires open { has_failed reader.old ≡ false }
        requires goes_on { Continues self.old.place.limit read_content (lines_from 1 0 (R.remaining (inner_of reader.old)))
            (lines_left self.old.place (R.remaining (inner_of reader.old))) at_front (progress self.old trace.old) }
        requires within { self.old.place.start ≤ self.old.place.limit }
        ensures read { OnOk result (IfSome (R.remaining (inner_of reader.old)) (λ text. read_text self.old.place.limit text ≡ Ok trace.new)) }
        ensures fault { IfErr result (λ why. IfSome (R.remaining (inner_of reader.old)) (λ text. IsOutcome (read_text self.old.place.limit text) (Err why))) }
        ensures failed { HasFailedBy (has_failed reader.new) result }
        ensures taken { taken_of reader.new + taken_by self.old.place ≤ taken_of reader.old + self.old.place.limit + bytes_past_limit }
    {
        let mut numbers = KnownNumbers::new(self.numbers.alloc());
        while self.next_line(reader, &ByText, trace, &mut numbers)? {}
        self.finish()
    }

    /// Reads whole lines that were read ahead, at most so many and until the trace has 131,072 steps, and returns how many. It takes nothing from the
    /// reader, and stops at a line that is too long.
    #[inline(always)]
    fn read_ahead(&mut self, trace: &mut Trace, most_lines: u32) -> Result<u32, ReadFault>
        ensures on { (known : Option (List ℕ)) → OnOk result (Continues self.old.place.limit read_content (lines_left self.old.place known) (lines_left self.new.place known) (progress self.old trace.old) (progress self.new trace.new)) }
        ensures tail { (known : Option (List ℕ)) → OnOk result (KeepsTail (lines_left self.old.place known) (lines_left self.new.place known) self.old.tail self.new.tail) }
        ensures fault { (known : Option (List ℕ)) → IfErr result (λ why. Turns self.old.place.limit read_content (lines_left self.old.place known) None (progress self.old trace.old) (progress self.old trace.old) (Err why)) }
        ensures grows { OnOk result (Grows trace.old trace.new) }
        ensures few { IfOk result (λ count. count ≤ most_lines) }
        ensures passed { IfOk result (λ count. self.old.place.start + count ≤ self.new.place.start) }
        ensures limit { self.new.place.limit ≡ self.old.place.limit }
        ensures within { self.new.place.start ≤ self.new.place.limit }
        ensures failed { IsErrOf result ReadFault.Read → ⊥ }
        ensures taken { taken_by self.new.place ≡ taken_by self.old.place }
        ensures most { taken_by self.new.place ≤ self.new.place.limit + bytes_past_limit }
    {
        let number = self.lines.number();
        let bytes = self.lines.ahead();
        let (header, cut) = (&mut self.header, &mut self.cut);
        let (count, len) = read_whole(header, cut, trace, number, bytes, most_lines)?;
        self.lines.pass_lines(u64::from(count), len);
        Ok(count)
    }

    /// Reads at least one line and at most so many, if there is one, and returns how many: those of an access that the shortcut has ready count as one.
    /// Lines that were read ahead are read at once, until the trace has 131,072 steps.
    #[inline(always)]
    fn next_lines<R: Read, S: Shortcut<R>>(
        &mut self,
        reader: &mut Device<R>,
        shortcut: &S,
        trace: &mut Trace,
        numbers: &mut KnownNumbers,
        most_lines: u32,
    ) -> Result<u32, ReadFault>
        requires open { has_failed reader.old ≡ false }
        requires some { 1 ≤ most_lines }
        requires right { AreRight (S.names_of (inner_of reader.old)) trace.old.names numbers.old }
        ensures right { OnOk result (AreRight (S.names_of (inner_of reader.new)) trace.new.names numbers.new) }
        ensures turn { IfOk result (λ count. 0 < count → Turns self.old.place.limit read_content (lines_left self.old.place (R.remaining (inner_of reader.old)))
            (lines_left self.new.place (R.remaining (inner_of reader.new))) (progress self.old trace.old) (progress self.new trace.new) (Ok true)) }
        ensures last { IfOk result (λ count. count ≡ 0 → Turns self.old.place.limit read_content (lines_left self.old.place (R.remaining (inner_of reader.old)))
            (lines_left self.new.place (R.remaining (inner_of reader.new))) (progress self.old trace.old) (progress self.new trace.new) (Ok false)) }
        ensures fault { IfErr result (λ why. Turns self.old.place.limit read_content (lines_left self.old.place (R.remaining (inner_of reader.old)))
            None (progress self.old trace.old) (progress self.old trace.old) (Err why)) }
        ensures tail { IfOk result (λ count. 0 < count → KeepsTail (lines_left self.old.place (R.remaining (inner_of reader.old))) (lines_left self.new.place (R.remaining (inner_of reader.new))) self.old.tail self.new.tail) }
        ensures last_tail { IfOk result (λ count. count ≡ 0 → KeepsTail (lines_left self.old.place (R.remaining (inner_of reader.old))) (Some []) self.old.tail self.new.tail) }
        ensures grows { OnOk result (Grows trace.old trace.new) }
        ensures few { IfOk result (λ count. count ≤ most_lines) }
        ensures passed { IfOk result (λ count. 0 < count → self.old.place.start + count ≤ self.new.place.start) }
        ensures limit { self.new.place.limit ≡ self.old.place.limit }
        ensures within { self.new.place.start ≤ self.new.place.limit }
        ensures failed { HasFailedBy (has_failed reader.new) result }
        ensures taken { taken_of reader.new + taken_by self.old.place ≤ taken_of reader.old + taken_by self.new.place }
        ensures most { taken_by self.new.place ≤ self.new.place.limit + bytes_past_limit }
        ensures touches { StaysKnown (S.touches (inner_of reader.old)) (S.touches (inner_of reader.new)) }
    {
        let count = self.read_ahead(trace, most_lines)?;
        if count > 0 {
            return Ok(count);
        }
        let more = self.next_line(reader, shortcut, trace, numbers)?;
        Ok(u32::from(more))
    }

    /// Reads at least one line and at most `most_lines`, until the trace has 131,072 steps.
    fn read_batch<R: Read, S: Shortcut<R>>(
        &mut self,
        reader: &mut Device<R>,
        shortcut: &S,
        trace: &mut Trace,
        numbers: &mut KnownNumbers,
        most_lines: u32,
    ) -> Result<Batch, ReadFault>
        requires open { has_failed reader.old ≡ false }
        requires right { AreRight (S.names_of (inner_of reader.old)) trace.old.names numbers.old }
        ensures batch { Batches self.old.place.limit (lines_left self.old.place (R.remaining (inner_of reader.old)))
            (lines_left self.new.place (R.remaining (inner_of reader.new))) (progress self.old trace.old) (progress self.new trace.new) result }
        ensures tail { BatchesTail (lines_left self.old.place (R.remaining (inner_of reader.old))) (lines_left self.new.place (R.remaining (inner_of reader.new))) self.old.tail self.new.tail result }
        ensures grows { OnOk result (Grows trace.old trace.new) }
        ensures limit { self.new.place.limit ≡ self.old.place.limit }
        ensures more { 1 ≤ most_lines → IfOk result (λ batch. batch ≡ Batch.More → self.old.place.start < self.new.place.start) }
        ensures full { IfOk result (λ batch. batch ≡ Batch.More → length trace.new.steps < batch_steps → self.old.place.start + most_lines ≤ self.new.place.start) }
        ensures within { self.new.place.start ≤ self.new.place.limit }
        ensures failed { HasFailedBy (has_failed reader.new) result }
        ensures taken { taken_of reader.new + taken_by self.old.place ≤ taken_of reader.old + taken_by self.new.place }
        ensures most { taken_by self.new.place ≤ self.new.place.limit + bytes_past_limit }
        ensures touches { StaysKnown (S.touches (inner_of reader.old)) (S.touches (inner_of reader.new)) }
    {
        // What is known of the place, also if no line is asked for.
        let _line = self.lines.number();
        let mut left = most_lines;
        while left > 0 {
            let count = self.next_lines(reader, shortcut, trace, numbers, left)?;
            if count == 0 {
                self.finish()?;
                return Ok(Batch::End);
            }
            left -= count;
            if trace.steps().len() >= BATCH_STEPS {
                return Ok(Batch::More);
            }
        }
        Ok(Batch::More)
    }

    /// Reads the next `most_lines` lines, or those up to the end of the text, and adds their steps to the trace. It stops behind the line that
    /// brings the trace to 131,072 steps, since a line of a long reuse has up to 1,025. The shortcut may have lines ready: those of one access count as one.
    ///
    /// A text that ends without a header has a fault at its end. After a fault the reader is not to be called again: nothing is known
    /// of what it would read.
    pub fn next_batch<R: Read, S: Shortcut<R>>(
        &mut self,
        reader: &mut Device<R>,
        shortcut: &S,
        trace: &mut Trace,
        most_lines: u32,
    ) -> Result<Batch, ReadFault>
        requires { has_failed reader.old ≡ false }

        // Of a text that was read so far it gives more steps, or the whole trace at the end, or the first fault of the text.
        ensures told { (text : List ℕ) (steps : List Step) (lines sites : List ℕ)
            → HasRead text steps lines sites self.old (R.remaining (inner_of reader.old)) trace.old
            → GivesBatch text steps lines sites self.new (R.remaining (inner_of reader.new)) trace.new result }

        // At the end of the text it knows how the text ends.
        ensures ends { (text : List ℕ) (steps : List Step) (lines sites : List ℕ)
            → HasRead text steps lines sites self.old (R.remaining (inner_of reader.old)) trace.old
            → IfOk result (λ batch. batch ≡ Batch.End → KnowsEnd text self.new) }

        // The steps that the trace had stay in front, and names keep their numbers.
        ensures grows { OnOk result (Grows trace.old trace.new) }

        ensures limit { self.new.place.limit ≡ self.old.place.limit }

        // A batch that isn't the last has passed over some bytes, and over a byte for each line that was asked for unless the trace has as many
        // steps as end a batch.
        ensures more { 1 ≤ most_lines → IfOk result (λ batch. batch ≡ Batch.More → self.old.place.start < self.new.place.start) }
        ensures full { IfOk result (λ batch. batch ≡ Batch.More → length trace.new.steps < batch_steps → self.old.place.start + most_lines ≤ self.new.place.start) }
        ensures within { self.new.place.start ≤ self.new.place.limit }

        ensures failed { HasFailedBy (has_failed reader.new) result }
        ensures taken { taken_of reader.new + taken_by self.old.place ≤ taken_of reader.old + taken_by self.new.place }
        ensures most { taken_by self.new.place ≤ self.new.place.limit + bytes_past_limit }
        ensures touches { StaysKnown (S.touches (inner_of reader.old)) (S.touches (inner_of reader.new)) }
    {
        let mut numbers = self.take_numbers();
        let batch = self.read_batch(reader, shortcut, trace, &mut numbers, most_lines);
        self.numbers = numbers;
        batch
    }

    /// How the text ended, once a batch was the last.
    pub fn ending(&self) -> Ending
        ensures { (text : List ℕ) → KnowsEnd text self.now → IsEndingOf text result }
    {
        Ending {
            lines: self.lines.number().saturating_sub(1),
            is_cut: self.cut,
            is_text_3: is_of_third(self.header.stage),
            is_open: lacks_end(self.header.stage),
            lost: if_any_lost(self.header.comment),
        }
    }
}

// Reads the first of these whole lines, of which the first has this number, at most so many and until the trace has 131,072 steps. Returns how many, and
// how many bytes they take. The place of a line stays in a few values of this loop, which is quicker than to note it in the reader at each line.
#[inline(always)]
fn read_whole(
    header: &mut Header,
    cut: &mut bool,
    trace: &mut Trace,
    number: u64,
    bytes: &[u8],
    most_lines: u32,
) -> Result<(u32, usize), ReadFault>
    requires small { number < 2 ^ 63 }
    ensures on { (limit start : ℕ) (tail : List ℕ) → start + length bytes.now ≤ limit → IfOk result (λ done. AreReadOn limit number start (bytes.now ++ tail) (number + done.0) (start + done.1) (drop done.1 bytes.now ++ tail) (at_line number header.old.stage header.old.idle trace.old) (at_line (number + done.0) header.new.stage header.new.idle trace.new)) }
    ensures ends { (start : ℕ) (tail : List ℕ) → IfOk result (λ done. AreEndedOn number start (bytes.now ++ tail) (number + done.0) (start + done.1) (drop done.1 bytes.now ++ tail) (record { cut = cut.old; comment = header.old.comment }) (record { cut = cut.new; comment = header.new.comment })) }
    ensures fault { (limit start : ℕ) (tail : List ℕ) (more : Option (List Placed)) (p : Progress) → start + length bytes.now ≤ limit
        → IfErr result (λ why. Turns limit read_content (Some (placed_from number start (lines_of (bytes.now ++ tail)))) more (at_line number header.old.stage header.old.idle trace.old) p (Err why)) }
    ensures grows { OnOk result (Grows trace.old trace.new) }
    ensures few { IfOk result (λ done. done.0 ≤ most_lines) }
    ensures passed { IfOk result (λ done. done.0 ≤ done.1) }
    ensures within { IfOk result (λ done. done.1 ≤ length bytes.now) }
    ensures failed { IsErrOf result ReadFault.Read → ⊥ }
{
    let mut at = 0;
    let mut count = 0;
    while count < most_lines && at < bytes.len() && trace.steps().len() < BATCH_STEPS {
        let rest = &bytes[at..];
        let len = line_len(rest);
        if len > LINE || len >= rest.len() {
            break;
        }
        header.read_plain(trace, number + u64::from(count), &rest[..len])?;
        *cut = false;
        at += len + 1;
        count += 1;
    }
    Ok((count, at))
}

// Reads a text to its end, in whatever pieces it comes, into an empty trace. Split for the prover.
fn read_into<R: Read>(
    alloc: Global,
    reader: &mut Device<R>,
    byte_limit: u64,
    trace: &mut Trace,
) -> Done
    requires open { has_failed reader.old ≡ false }
    requires limit { byte_limit ≤ 2 ^ 62 }
    requires empty { trace.old ≡ no_steps }
    ensures read { OnOk result (IfSome (R.remaining (inner_of reader.old)) (λ text. read_text byte_limit text ≡ Ok trace.new)) }
    ensures fault { IfErr result (λ why. IfSome (R.remaining (inner_of reader.old)) (λ text. IsOutcome (read_text byte_limit text) (Err why))) }
    ensures failed { HasFailedBy (has_failed reader.new) result }
    ensures taken { taken_of reader.new ≤ taken_of reader.old + byte_limit + bytes_past_limit }
{
    let mut lines = TraceReader::with_window(alloc, byte_limit, 65_536)?;
    let read = lines.read_left(reader, trace);
    drop(lines);
    read
}

/// Reads a trace text to its end, or to its first faulty line, in whatever pieces it comes.
///
/// The text has at most `byte_limit` bytes, and the limit is at most 2^62. What follows a faulty line may or may not have been taken
/// from the reader. No memory is kept but that of the trace and a window of 65,536 bytes. Whoever makes a text with many names can make
/// it slow: see [`read_trace_keyed`].
pub fn read_trace<R: Read>(
    alloc: Global,
    reader: &mut Device<R>,
    byte_limit: u64,
) -> Result<Trace, ReadFault>
    requires open { has_failed reader.old ≡ false }
    requires limit { byte_limit ≤ 2 ^ 62 }

    // If the reader's bytes are known, the answer is their trace, or their fault.
    ensures told { IfSome (R.remaining (inner_of reader.old)) (λ text. Tells text byte_limit result) }

    ensures failed { HasFailedBy (has_failed reader.new) result }
    ensures taken { taken_of reader.new ≤ taken_of reader.old + byte_limit + bytes_past_limit }
{
    read_trace_keyed(alloc, reader, byte_limit, NameKeys::KNOWN)
}

/// The same for a text of a stranger: its names are hashed by these keys.
pub fn read_trace_keyed<R: Read>(
    alloc: Global,
    reader: &mut Device<R>,
    byte_limit: u64,
    keys: NameKeys,
) -> Result<Trace, ReadFault>
    requires open { has_failed reader.old ≡ false }
    requires limit { byte_limit ≤ 2 ^ 62 }
    ensures told { IfSome (R.remaining (inner_of reader.old)) (λ text. Tells text byte_limit result) }
    ensures failed { HasFailedBy (has_failed reader.new) result }
    ensures taken { taken_of reader.new ≤ taken_of reader.old + byte_limit + bytes_past_limit }
{
    let mut trace = Trace::keyed(alloc, keys);
    match read_into(alloc, reader, byte_limit, &mut trace) {
        Ok(()) => Ok(trace),
        Err(why) => {
            drop(trace);
            Err(why)
        }
    }
}
