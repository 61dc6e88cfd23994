//! Lines of a trace that were never made as text.
ghost use Rattle.std.specs.Prelude.{◌≡◌, List, ℕ, [], IfOk, IfSome, OnErr, Some, length, true};
ghost use Rattle.std.specs.Io.{ReadsAtMost};
ghost use Rattle.std.specs.Io.KnownBytes.{ReadConsumes};
ghost use Rattle.er_lines.specs.Ready.{HasTaken, IsRight, KeepsNames, is_ready, line_text, ready_text};
ghost use Rattle.er_lines.specs.Touches.{HasHanded, StaysKnown};

use std::alloc::AllocError;
use std::io;
use std::io::Read;

/// What a ready line does.
#[derive(Clone, Copy, PartialEq, Eq)]
pub enum ReadyVerb {
    Read,
    Write,
    Lock,
    Unlock,
    ReadLock,
    ReadUnlock,
}

/// What a number of a reader names.
#[derive(Clone, Copy, PartialEq, Eq)]
pub enum NameKind {
    Thread,
    Lock,
    Site,
}

/// Lines of a trace that were never made as text: of a lock event one, and of an access one for each word. Their names are numbers of the reader that
/// gave them.
///
/// The text of a line is the thread, the verb, and for an access the address of its word with twelve digits and its site, if it has one, for
/// another verb the lock; one space stands between two of them, and an LF behind them.
#[derive(Clone, Copy)]
pub struct ReadyLine {
    pub verb: ReadyVerb,
    /// Of an access: where its first word begins, a multiple of 4 below 2^48. Of a lock event: 0.
    pub address: u64,
    /// The number of its thread's name.
    pub thread: u64,
    /// The number of its site's name, if it has one, or of its lock's.
    pub name: Option<u64>,
    /// How many lines it is, 1 to 5: each is of the word behind that of the one before.
    pub count: u64,
    /// How many bytes the text of each line takes, its LF included.
    pub width: u64,
}

/// Which bytes of its word the access on a line of the text touches, from the first to the last one, both included.
#[derive(Clone, Copy)]
pub struct Touch {
    /// The number of the line.
    pub line: u64,
    /// The first byte, of 0 to 3.
    pub first: u8,
    /// The last one.
    pub last: u8,
}

/// Takes lines from a reader before they are text, and hands out what their accesses touch and what the reader keeps.
pub trait Shortcut<R: Read> {
    ghost use Rattle.std.specs.Prelude.{Option};
    ghost use Rattle.er_lines.specs.declared.ready.NameKind.{NameKind};
    ghost use Rattle.er_lines.specs.declared.ready.Touch.{Touch};

    /// The name of a number of the reader, and no bytes if the number has none.
    ghost names_of: { R → NameKind → ℕ → List ℕ };

    /// What the accesses of the text touch that don't touch their whole word, in the order of lines, as far as it isn't handed out: if it is known.
    ghost touches: { R → Option (List Touch) };

    /// Reads as [`Read::read`] does.
    fn read(&self, reader: &mut R, buffer: &mut [u8]) -> io::Result<usize>
        ensures bound { ReadsAtMost result buffer.new }
        ensures bytes { ReadConsumes (R.remaining reader.old) (R.remaining reader.new) result buffer.new }
        ensures names { KeepsNames (names_of reader.old) (names_of reader.new) }
        ensures touches { StaysKnown (touches reader.old) (touches reader.new) };

    /// Whether most lines are ready, so that one thread that takes them is faster than several that read text. It changes nothing of what they are.
    fn takes_most(&self, reader: &R) -> bool;

    /// Takes the next lines, if they are ready. None changes nothing of what the reader gives.
    fn take(&self, reader: &mut R) -> Option<ReadyLine>
        ensures taken { HasTaken (R.remaining reader.old) (R.remaining reader.new) (line_text (names_of reader.new)) result }
        ensures right { IfSome result (IsRight (names_of reader.new)) }

        // A number that had a name keeps it.
        ensures kept { KeepsNames (names_of reader.old) (names_of reader.new) }

        ensures touches { StaysKnown (touches reader.old) (touches reader.new) };

    /// Puts what is known so far of what accesses touch behind the others. Returns the number of a line: what comes later is of this line or of lines
    /// behind it. `AllocError`: memory was refused, and nothing changed.
    fn hand_out(&self, reader: &mut R, others: &mut Vec<Touch>) -> Result<u64, AllocError>
        ensures handed { IfOk result (λ line. IfSome (touches reader.old) (λ old. HasHanded old (touches reader.new) others.old.items others.new.items line)) }
        ensures same { OnErr result ((others.new.items ≡ others.old.items) × StaysKnown (touches reader.old) (touches reader.new)) }
        ensures text { R.remaining reader.new ≡ R.remaining reader.old }
        ensures names { names_of reader.new ≡ names_of reader.old };

    /// The name of a number, and no bytes if it has none, until the reader changes.
    fn name<'a>(&self, reader: &'a R, kind: NameKind, number: u64) -> &'a [u8]
        ensures { result.now ≡ names_of reader.now kind number };

    /// The bytes that it was read from, if the reader keeps them.
    fn kept<'a>(&self, reader: &'a R) -> Option<&'a [u8]>;
}

/// Takes no line: everything comes as text, and each access touches its whole word.
#[derive(Clone, Copy)]
pub struct ByText;

impl<R: Read> Shortcut<R> for ByText {
    ghost names_of = { λ reader kind number. [] };

    ghost touches = { λ reader. Some [] };

    #[inline(always)]
    fn read(&self, reader: &mut R, buffer: &mut [u8]) -> io::Result<usize> {
        reader.read(buffer)
    }

    fn takes_most(&self, _reader: &R) -> bool {
        false
    }

    #[inline(always)]
    fn take(&self, _reader: &mut R) -> Option<ReadyLine> {
        None
    }

    fn hand_out(&self, _reader: &mut R, _others: &mut Vec<Touch>) -> Result<u64, AllocError> {
        Ok(u64::MAX)
    }

    fn name<'a>(&self, _reader: &'a R, _kind: NameKind, _number: u64) -> &'a [u8] {
        b"".as_slice()
    }

    fn kept<'a>(&self, _reader: &'a R) -> Option<&'a [u8]> {
        None
    }
}

/// How many bytes the text of a line takes, its LF included, by its verb and its names.
#[inline(always)]
pub fn ready_width(verb: ReadyVerb, address: u64, thread: &[u8], name: &[u8]) -> u64
    requires { is_ready verb address thread.now name.now ≡ true }
    ensures { result ≡ length (ready_text verb address thread.now name.now) }
{
    // The verb, the address, a space before each of them, and the LF.
    let fixed = match verb {
        ReadyVerb::Read => 21,
        ReadyVerb::Write => 22,
        ReadyVerb::Lock => 6,
        ReadyVerb::Unlock => 8,
        ReadyVerb::ReadLock => 7,
        ReadyVerb::ReadUnlock => 9,
    };
    let named = if name.is_empty() { 0 } else { name.len() + 1 };
    (thread.len() + fixed + named) as u64
}
