//! Pieces of a text: lines that are read apart from those before them, over names of their own.
ghost use Rattle.std.specs.Prelude.{◌≡◌, ◌+◌, ◌-◌, ◌<◌, ◌≤◌, ◌^◌, ◌&&◌, nat_eq, ℕ, All, IsTrue, List, Option, take, drop, length, OnOk, IfSome, [], true};
ghost use Rattle.er_event.specs.declared.steps.Step.{Step as Steps};
ghost use Rattle.er_text.specs.Batches.{HasRead};
ghost use Rattle.er_lines.specs.Lending.{taken_by};
ghost use Rattle.er_text.specs.Inner.Pieces.{AreRead, IsReadInFront, comment_behind};
ghost use Rattle.er_text.specs.Ending.{comment_past, comment_after};
ghost use Rattle.er_lines.specs.Lines.{bytes_past_limit, lines_of, placed_from};
ghost use Rattle.er_text.specs.Pieces.{ReadPiece, CanBeNumbered, IsEntered, IsNumbered, IsPieceOf, IsReadAnew, IsReady, MayBeAdded, StandsInFront};
ghost use Rattle.er_trace.specs.Appended.{with_table};
ghost use Rattle.er_trace.specs.Names.{NameTable, AreSame};
ghost use Rattle.er_trace.specs.Trace.{IsNamed, HasSiteName, with_steps};

use crate::endings::Lost;
use crate::reading::{Header, LINE, TraceReader};
use crate::stages::Stage;
use crate::verbs::Version;
use er_event::{Site, Step};
use er_lines::line_len;
use er_trace::{NameKeys, Names, NewTable, Trace};
use std::alloc::{AllocError, Global};
use std::marker::Model;

/// The least bytes of a piece for each of its steps.
const STEP: usize = 4;

/// Event lines that are read apart from those before them, over names of their own.
///
/// Several threads can read pieces of one text side by side. Then one thread adds their names to the trace, in their order
/// ([`enter`](Piece::enter)), each thread gives the steps of its piece their numbers there ([`number`](Piece::number)), and
/// [`TraceReader::add_piece`] adds them.
#[derive(Drop)]
pub struct Piece {
    alloc: Global,
    keys: NameKeys,
    trace: Trace,
    lines: u64,
    len: usize,
    whole: bool,
    comment: Option<Lost>,
    numbers: NewTable,
    before: u64,
    steps: Vec<Step>,
    places: Vec<u64>,
    sites: Vec<Site>,
}

impl Model for Piece {
    ghost use Rattle.er_text.specs.Pieces.{ReadPiece};

    ghost Value = { ReadPiece };

    ghost view = { λ p. record { told = p.trace; lines = p.lines; len = p.len; whole = p.whole; comment = p.comment; numbers = p.numbers; before = p.before; steps = p.steps.items; places = p.places.items; sites = p.sites.items } };
}

impl Piece {
    /// A piece of which nothing was read. Its names are hashed by these keys.
    pub fn new(alloc: Global, keys: NameKeys) -> Piece {
        Piece {
            alloc,
            keys,
            trace: Trace::keyed(alloc, keys),
            lines: 0,
            len: 0,
            whole: false,
            comment: None,
            numbers: NewTable::none(alloc),
            before: 0,
            steps: Vec::new(alloc),
            places: Vec::new(alloc),
            sites: Vec::new(alloc),
        }
    }

    /// How many lines it has.
    pub fn lines(&self) -> u64
        ensures { result ≡ self.now.lines }
    {
        self.lines
    }

    /// Whether all of its lines were read. If one of them has a fault, or can't be read apart, or they have far more steps than bytes, or memory
    /// was refused, the answer is no.
    pub fn is_whole(&self) -> bool
        ensures { result ≡ self.now.whole }
    {
        self.whole
    }

    /// Reads these lines of a text of this version, and forgets what was read before. Its names begin as those of the lines before, with their
    /// numbers, if these are few. Otherwise it keeps its own if they are few and all among these.
    ///
    /// A line can't be read apart if what it says depends on threads that are named in lines before: a start, and most joins.
    pub fn read(&mut self, version: Version, names: &Names, bytes: &[u8])
        ensures of { IsPieceOf version names.now bytes.now self.new }
        ensures begins { self.new.whole ≡ true → IsReadAnew version names.now self.old.told.names (lines_of bytes.now) self.new }
    {
        let mut header = Header::new(self.alloc, Stage::Events(version));
        self.trace.restart(names, self.alloc, self.keys);
        self.len = bytes.len();
        let lines = read_lines(&mut header, version, &mut self.trace, bytes);
        self.whole = lines.is_some();
        self.lines = lines.unwrap_or(0);
        self.comment = header.comment;
    }

    /// Adds the names of the piece to a trace, and notes their numbers there, and how many lines of the text stand before its own.
    ///
    /// `AllocError`: memory was refused, or there are 2^30 names of one sort and a new one. Then only some of the names are there.
    pub fn enter(&mut self, trace: &mut Trace, before: u64) -> Result<(), AllocError>
        ensures names { OnOk result (trace.new ≡ record trace.old { names = with_table trace.old.names self.old.told.names }) }
        ensures entered { OnOk result (IsEntered before trace.new.names self.old self.new) }
    {
        self.numbers = trace.add_names(self.trace.names())?;
        self.before = before;
        Ok(())
    }

    /// Whether its names, once added to the trace, are known to have the same numbers there: then [`number`](Piece::number) only counts lines.
    pub fn has_its_numbers(&self) -> bool
        ensures { IsTrue result → AreSame self.now.numbers.threads × AreSame self.now.numbers.locks × AreSame self.now.numbers.sites }
    {
        self.numbers.are_same()
    }

    /// Gives its steps and sites the numbers that were noted, where these are others, and counts its lines from behind those before. What was read
    /// is no longer there then.
    pub fn number(&mut self)
        requires { CanBeNumbered self.old }
        ensures { IsNumbered self.old self.new }
    {
        self.trace.take_numbered(
            &self.numbers,
            self.before,
            &mut self.steps,
            &mut self.places,
            &mut self.sites,
        );
    }

    /// Adds its numbered steps to a trace. One without steps takes the lists for its own, so that nothing is copied.
    fn give_steps(&mut self, trace: &mut Trace) -> Result<(), AllocError>
        requires level { length self.old.places ≡ length self.old.steps }
        requires level_sites { length self.old.sites ≡ length self.old.steps }
        requires named { All (IsNamed trace.old.names) self.old.steps }
        requires named_sites { All (HasSiteName trace.old.names) self.old.sites }
        ensures { OnOk result (trace.new ≡ with_steps trace.old self.old.steps self.old.places self.old.sites) }
    {
        if trace.steps().is_empty() {
            trace.swap_steps(&mut self.steps, &mut self.places, &mut self.sites);
            return Ok(());
        }
        let (steps, places) = (self.steps.as_slice(), self.places.as_slice());
        trace.add_steps(steps, places, self.sites.as_slice())
    }
}

/// Reads lines behind a header, and says how many they are. None if one of them can't be read apart, they have more than a step for each
/// [`STEP`] bytes, as long reuses have, or memory was refused.
fn read_lines(header: &mut Header, version: Version, trace: &mut Trace, bytes: &[u8]) -> Option<u64>
    requires open { (header.old.stage ≡ Stage.Events version) × (header.old.idle ≡ []) }
    ensures read { IfSome result (λ lines. AreRead version (lines_of bytes.now) 0 trace.old lines trace.new) }
    ensures comment { IfSome result (λ lines. header.new.comment ≡ comment_after header.old.comment (placed_from 0 0 (lines_of bytes.now))) }
{
    let mut at = 0;
    let mut line = 0;
    while at < bytes.len() {
        at += read_front(header, version, trace, line, &bytes[at..])?;
        line += 1;
        if trace.steps().len() > bytes.len() / STEP {
            return None;
        }
    }
    Some(line)
}

/// Reads the line in front, and returns how many bytes it takes with its LF.
#[inline(always)]
fn read_front(
    header: &mut Header,
    version: Version,
    trace: &mut Trace,
    line: u64,
    bytes: &[u8],
) -> Option<usize>
    requires open { (header.old.stage ≡ Stage.Events version) × (header.old.idle ≡ []) }
    ensures open { IfSome result (λ width. (header.new.stage ≡ Stage.Events version) × (header.new.idle ≡ [])) }
    ensures some { IfSome result (λ width. 1 ≤ width) }
    ensures within { IfSome result (λ width. width ≤ length bytes.now) }
    ensures comment { IfSome result (λ width. header.new.comment ≡ comment_past header.old.comment line (take (width - 1) bytes.now)) }
    ensures read { IfSome result (λ width. IsReadInFront version line bytes.now width trace.old trace.new) }
{
    let len = line_len(bytes);
    if len > LINE || len >= bytes.len() {
        return None;
    }
    let Ok(()) = header.read_plain(trace, line, &bytes[..len]) else {
        return None;
    };
    if header.stage != Stage::Events(version) || !header.idle.is_empty() {
        return None;
    }
    Some(len + 1)
}

/// What the last comment says behind a piece, whose first line has this number.
fn comment_behind(number: u64, last: Option<Lost>, comment: Option<Lost>) -> Option<Lost>
    requires { IfSome comment (λ lost. number + lost.line < 2 ^ 64) }
    ensures { result ≡ comment_behind number last comment }
{
    match comment {
        Some(lost) => Some(Lost {
            line: number + lost.line,
            events: lost.events,
        }),
        None => last,
    }
}

impl TraceReader {
    /// The version of the text, if the lines in front may be read in pieces: the header is past, the line `end` is not, and no thread is
    /// named that doesn't act.
    pub fn version(&self) -> Option<Version>
        ensures { IfSome result (λ version. (self.now.stage ≡ Stage.Events version) × (self.now.idle ≡ [])) }
    {
        match self.header.stage {
            Stage::Events(version) if self.header.idle.is_empty() => Some(version),
            _ => None,
        }
    }

    /// How many lines of the text stand before the piece in front: the number of its first line, since a piece counts from 0.
    pub fn lines_before(&self) -> u64
        ensures value { result ≡ self.now.place.number }
        ensures bound { result ≤ self.now.place.limit + 1 }
        ensures most_limit { self.now.place.limit ≤ 2 ^ 62 }
    {
        self.lines.number()
    }

    /// Adds the steps of a piece that was read of the lines in front and numbered, and passes over these lines. A trace without steps takes the piece's
    /// lists for its own, so that nothing is copied: the piece is then to be read anew.
    ///
    /// `AllocError`: memory was refused, and the trace is as it was.
    pub fn add_piece(&mut self, trace: &mut Trace, piece: &mut Piece) -> Result<(), AllocError>
        requires { MayBeAdded self.old trace.old piece.old }

        // Of a text that was read so far under some names it gives the steps of the piece behind the others, under its names too.
        ensures told { (text : List ℕ) (steps : List Steps) (lines sites : List ℕ) (known : Option (List ℕ)) (names : NameTable) (read : ReadPiece)
            → StandsInFront names self.old read → read.whole ≡ true → IsReady self.old.place.number (with_table names read.told.names) read piece.old
            → HasRead text steps lines sites self.old known (record trace.old { names = names })
            → OnOk result (HasRead text steps lines sites self.new known (record trace.new { names = with_table names read.told.names })) }

        ensures trace { OnOk result (trace.new ≡ with_steps trace.old piece.old.steps piece.old.places piece.old.sites) }
        ensures number { OnOk result (self.new.place.number ≡ self.old.place.number + piece.old.lines) }
        ensures start { OnOk result (self.new.place.start ≡ self.old.place.start + piece.old.len) }
        ensures ahead { OnOk result (self.new.place.ahead ≡ drop piece.old.len self.old.place.ahead) }
        ensures stage { (self.new.stage ≡ self.old.stage) × (self.new.idle ≡ self.old.idle) }
        ensures limit { self.new.place.limit ≡ self.old.place.limit }
        ensures within { self.new.place.start ≤ self.new.place.limit }
        ensures taken { taken_by self.new.place ≡ taken_by self.old.place }
        ensures most { taken_by self.new.place ≤ self.new.place.limit + bytes_past_limit }
    {
        let line = self.lines.number();
        let (lines, len, comment) = (piece.lines, piece.len, piece.comment);
        piece.give_steps(trace)?;
        self.lines.pass_lines(lines, len);
        self.cut = self.cut && len == 0;
        self.header.comment = comment_behind(line, self.header.comment, comment);
        Ok(())
    }
}
