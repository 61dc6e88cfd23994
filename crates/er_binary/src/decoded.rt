//! A reader of the text that a trace of any form means.
ghost use Rattle.std.specs.Prelude.{◌≡◌, ◌≢◌, ◌≤◌, ℕ, List, IfOk, IfSome, OnErr, OnOk, Some, cond, false, option_map, true};
ghost use Rattle.std.specs.Io.{ReadsAtMost};
ghost use Rattle.std.specs.Io.KnownBytes.{Keeps, ReadConsumes};

use crate::decoder::{Decoder, copy_front, fill};
use crate::names::Names;
use crate::state::State;
use er_device::Keeping;
use er_lines::{NameKind, ReadyLine, Shortcut, Touch};
use std::alloc::{AllocError, Global};
use std::io;
use std::io::Read;

const MAGIC: [u8; 8] = *b"\xe5eraser\x04";

/// Who hears the records of a binary trace.
pub trait Listener {
    /// Hears the bytes of a record, the text that it adds, and what is known behind it.
    fn hear(&mut self, bytes: &[u8], text: &[u8], state: &State);
}

impl Listener for () {
    fn hear(&mut self, _bytes: &[u8], _text: &[u8], _state: &State) {}
}

/// What a trace was found to be.
#[derive(Drop)]
enum Form {
    Unknown,
    Text,
    Binary(Decoder),
}

/// Reads a trace of any form as text.
///
/// It allocates nothing before it has seen the first 8 bytes of a binary trace. An error of `read` changes nothing that it gives later: a read
/// of what it wraps failed, or there was no memory.
#[derive(Drop)]
pub struct Decoded<R> {
    inner: Keeping<R>,
    alloc: Global,
    form: Form,
    // Whether what accesses touch is noted.
    is_noting: bool,
    // The first bytes, of which there are `held`. Of these `given` were given.
    first: [u8; 8],
    held: usize,
    given: usize,
    ghost within: { held ≤ 8 },
    ghost behind: { given ≤ held },
}

impl<R> Decoded<R> {
    ghost use Rattle.er_binary.specs.Decoded.{IsFresh, TouchesFresh, is_binary, is_noting, names_of, source_of, to_come, to_touch};
    ghost use Rattle.er_lines.specs.Touches.{HasHanded};

    /// A reader of what the other one gives. It notes nothing of what accesses touch: each counts as touching its whole word.
    pub fn new(alloc: Global, inner: R) -> Decoded<R>
        ensures source { source_of result ≡ inner }
        ensures fresh { IsFresh result }
        ensures form { is_binary result ≡ false }
        ensures noting { is_noting result ≡ false }
        ensures touches { TouchesFresh result }
    {
        Decoded {
            inner: Keeping::new(inner),
            alloc,
            form: Form::Unknown,
            is_noting: false,
            first: [0; 8],
            held: 0,
            given: 0,
        }
    }

    /// Has what accesses touch noted that don't touch their whole word, unless it has read the beginning of a binary trace: then all stays as it
    /// is. What is noted is to be handed out now and then: see [`hand_out`](Decoded::hand_out).
    pub fn note_touches(&mut self)
        ensures noting { is_noting self.new ≡ cond (is_binary self.old) (is_noting self.old) true }
        ensures text { (bytes : List ℕ) → to_come self.new bytes ≡ to_come self.old bytes }
        ensures touches { (bytes : List ℕ) → to_touch self.new bytes ≡ to_touch self.old bytes }
        ensures source { source_of self.new ≡ source_of self.old }
        ensures names { names_of self.new ≡ names_of self.old }
    {
        self.is_noting = true;
    }

    /// Keeps the bytes that it reads from now on, to be read again: see [`kept`](Shortcut::kept).
    pub fn keep(&mut self)
        ensures noting { is_noting self.new ≡ is_noting self.old }
        ensures text { (bytes : List ℕ) → to_come self.new bytes ≡ to_come self.old bytes }
        ensures touches { (bytes : List ℕ) → to_touch self.new bytes ≡ to_touch self.old bytes }
        ensures source { source_of self.new ≡ source_of self.old }
        ensures names { names_of self.new ≡ names_of self.old }
        ensures form { is_binary self.new ≡ is_binary self.old }
    {
        self.inner.begin(self.alloc);
    }

    // Whether it notes what accesses touch.
    fn is_noting(&self) -> bool
        ensures { result ≡ is_noting self.now }
    {
        match &self.form {
            Form::Binary(decoder) => decoder.notes.is_on,
            _ => self.is_noting,
        }
    }

    /// Puts what was noted behind the others. From then on it isn't known here any more. Returns the number of a line: what is noted later is of this
    /// line or of lines behind it. `AllocError`: memory was refused, and nothing changed.
    pub fn hand_out(&mut self, touches: &mut Vec<Touch>) -> Result<u64, AllocError>
        ensures handed { IfOk result (λ line. is_noting self.old ≡ true → (bytes : List ℕ) → HasHanded (to_touch self.old bytes) (Some (to_touch self.new bytes)) touches.old.items touches.new.items line) }
        ensures noting { is_noting self.new ≡ is_noting self.old }
        ensures same { OnErr result ((touches.new.items ≡ touches.old.items) × ((bytes : List ℕ) → to_touch self.new bytes ≡ to_touch self.old bytes)) }
        ensures text { (bytes : List ℕ) → to_come self.new bytes ≡ to_come self.old bytes }
        ensures source { source_of self.new ≡ source_of self.old }
        ensures names { names_of self.new ≡ names_of self.old }
    {
        match &mut self.form {
            Form::Binary(decoder) => decoder.notes.hand_out(touches),
            Form::Text => Ok(u64::MAX),
            Form::Unknown => Ok(0),
        }
    }

    /// Whether it has read the beginning of a binary trace.
    pub fn is_binary(&self) -> bool
        ensures { result ≡ is_binary self.now }
    {
        matches!(self.form, Form::Binary(_))
    }
}

impl<R: Drop> Decoded<R> {
    ghost use Rattle.er_binary.specs.Decoded.{places_of};

    /// The names of the places so far. Of a text there are none.
    pub fn into_places(self) -> Names
        ensures { result ≡ places_of self }
    {
        let Decoded { alloc, form, .. } = self;
        match form {
            Form::Binary(decoder) => decoder.into_places(),
            _ => Names::new(alloc),
        }
    }
}

impl<R: Read> Decoded<R> {
    ghost use Rattle.er_binary.specs.Decoded.{is_noting, names_of, source_of, to_come, to_touch};
    ghost use Rattle.er_lines.specs.Ready.{HasTaken, IsRight, KeepsNames, line_text};
    ghost use Rattle.er_lines.specs.Touches.{StaysKnown};
    ghost use Rattle.er_binary.specs.declared.decoded.Form.TheVariants as form;

    /// Reads as [`Read::read`] does. The listener hears each record whose text comes next.
    pub fn read_with<L: Listener>(
        &mut self,
        buffer: &mut [u8],
        listener: &mut L,
    ) -> io::Result<usize>
        ensures bound { ReadsAtMost result buffer.new }
        ensures bytes { ReadConsumes (option_map (to_come self.old) (R.remaining (source_of self.old))) (option_map (to_come self.new) (R.remaining (source_of self.new))) result buffer.new }
        ensures noting { is_noting self.new ≡ is_noting self.old }
        ensures names { KeepsNames (names_of self.old) (names_of self.new) }
        ensures touches { is_noting self.old ≡ true → StaysKnown (option_map (to_touch self.old) (R.remaining (source_of self.old))) (option_map (to_touch self.new) (R.remaining (source_of self.new))) }
    {
        self.begin()?;
        match &mut self.form {
            Form::Binary(decoder) => decoder.read(&mut self.inner, buffer, listener),
            _ => self.read_text(buffer),
        }
    }

    // Finds out what the first bytes begin, if it hasn't yet.
    fn begin(&mut self) -> io::Result<()>
        ensures known { OnOk result (self.new.form ≢ form.Unknown) }
        ensures same { Keeps (option_map (to_come self.old) (R.remaining (source_of self.old))) (option_map (to_come self.new) (R.remaining (source_of self.new))) }
        ensures noting { is_noting self.new ≡ is_noting self.old }
        ensures names { KeepsNames (names_of self.old) (names_of self.new) }
        ensures touches { is_noting self.old ≡ true → StaysKnown (option_map (to_touch self.old) (R.remaining (source_of self.old))) (option_map (to_touch self.new) (R.remaining (source_of self.new))) }
    {
        match self.form {
            Form::Unknown => self.find_form(),
            _ => Ok(()),
        }
    }

    // Reads the first bytes. A function of its own, since what it has on its stack is cleared at each call.
    #[inline(never)]
    fn find_form(&mut self) -> io::Result<()>
        requires { self.old.form ≡ form.Unknown }
        ensures known { OnOk result (self.new.form ≢ form.Unknown) }
        ensures same { Keeps (option_map (to_come self.old) (R.remaining (source_of self.old))) (option_map (to_come self.new) (R.remaining (source_of self.new))) }
        ensures noting { is_noting self.new ≡ is_noting self.old }
        ensures names { KeepsNames (names_of self.old) (names_of self.new) }
        ensures touches { is_noting self.old ≡ true → StaysKnown (option_map (to_touch self.old) (R.remaining (source_of self.old))) (option_map (to_touch self.new) (R.remaining (source_of self.new))) }
    {
        self.given = 0;
        fill(&mut self.inner, &mut self.first, &mut self.held)?;
        if &self.first[..self.held] != MAGIC.as_slice() {
            self.form = Form::Text;
            return Ok(());
        }
        self.form = Form::Binary(Decoder::new(self.alloc, self.is_noting)?);
        Ok(())
    }

    // Gives the first bytes of a text, and then hands on what is read.
    fn read_text(&mut self, buffer: &mut [u8]) -> io::Result<usize>
        requires { self.old.form ≡ form.Text }
        ensures bound { ReadsAtMost result buffer.new }
        ensures bytes { ReadConsumes (option_map (to_come self.old) (R.remaining (source_of self.old))) (option_map (to_come self.new) (R.remaining (source_of self.new))) result buffer.new }
        ensures noting { is_noting self.new ≡ is_noting self.old }
        ensures names { KeepsNames (names_of self.old) (names_of self.new) }
        ensures touches { is_noting self.old ≡ true → StaysKnown (option_map (to_touch self.old) (R.remaining (source_of self.old))) (option_map (to_touch self.new) (R.remaining (source_of self.new))) }
    {
        if self.given == self.held {
            return self.inner.read(buffer);
        }
        let (_, rest) = self.first[..self.held].split_at(self.given);
        let count = copy_front(rest, buffer);
        self.given += count;
        Ok(count)
    }

    // Takes the next lines, if they are ready.
    fn take_line(&mut self) -> Option<ReadyLine>
        ensures taken { HasTaken (option_map (to_come self.old) (R.remaining (source_of self.old))) (option_map (to_come self.new) (R.remaining (source_of self.new))) (line_text (names_of self.new)) result }
        ensures right { IfSome result (IsRight (names_of self.new)) }
        ensures kept { KeepsNames (names_of self.old) (names_of self.new) }
        ensures source { source_of self.new ≡ source_of self.old }
        ensures noting { is_noting self.new ≡ is_noting self.old }
        ensures touches { is_noting self.old ≡ true → (bytes : List ℕ) → to_touch self.old bytes ≡ to_touch self.new bytes }
    {
        match &mut self.form {
            Form::Binary(decoder) => decoder.take(),
            _ => None,
        }
    }
}

/// Takes accesses and lock events of a binary trace before they are text, and hands out what was noted of accesses, if that is noted.
#[derive(Clone, Copy)]
pub struct Directly;

impl<R: Read> Shortcut<Decoded<R>> for Directly {
    ghost use Rattle.er_binary.specs.Decoded.{known_touches, names_of};

    ghost names_of = { names_of };

    ghost touches = { known_touches R.remaining };

    fn read(&self, reader: &mut Decoded<R>, buffer: &mut [u8]) -> io::Result<usize> {
        reader.read_with(buffer, &mut ())
    }

    fn takes_most(&self, reader: &Decoded<R>) -> bool {
        reader.is_binary()
    }

    fn take(&self, reader: &mut Decoded<R>) -> Option<ReadyLine> {
        reader.take_line()
    }

    fn hand_out(
        &self,
        reader: &mut Decoded<R>,
        others: &mut Vec<Touch>,
    ) -> Result<u64, AllocError> {
        if !reader.is_noting() {
            // Each access counts as touching its whole word, and nothing is handed out later.
            return Ok(u64::MAX);
        }
        reader.hand_out(others)
    }

    fn name<'a>(&self, reader: &'a Decoded<R>, kind: NameKind, number: u64) -> &'a [u8] {
        match &reader.form {
            Form::Binary(decoder) => decoder.state.name(kind, number),
            _ => b"".as_slice(),
        }
    }

    fn kept<'a>(&self, reader: &'a Decoded<R>) -> Option<&'a [u8]> {
        reader.inner.kept()
    }
}

impl<R: Read> Read for Decoded<R> {
    ghost use Rattle.er_binary.specs.Decoded.{source_of, to_come};

    ghost remaining = { λ decoded. option_map (to_come decoded) (R.remaining (source_of decoded)) };

    fn read(&mut self, buffer: &mut [u8]) -> io::Result<usize> {
        self.read_with(buffer, &mut ())
    }
}
