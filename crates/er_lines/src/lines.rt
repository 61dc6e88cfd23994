//! The lines of a text, one after another, in whatever pieces a reader gives its bytes.
ghost use Rattle.std.specs.Prelude.{◌≡◌, ◌+◌, ◌-◌, ◌++◌, ◌<◌, ◌≤◌, ◌^◌, min, length, take, OnOk, IfOk, IfSome, IsErrOf, true, if◌then◌else◌, ℕ, List, Option, false};
ghost use Rattle.std.specs.Io.KnownBytes.{Keeps, prepend_known};
ghost use Rattle.er_device.specs.Device.{inner_of, has_failed, taken_of, Failing};
ghost use Rattle.er_lines.specs.Lines.{bytes_past_limit, AreWhole};
ghost use Rattle.er_lines.specs.Faults.{HasFailedBy};
ghost use Rattle.er_lines.specs.Inner.Windows.{items};
ghost use Rattle.er_lines.specs.Lending.{taken_by, lines_left, is_ended, front_width, past, past_lines, IsInFront, IsWithin, Finds};
ghost use Rattle.er_lines.specs.Ready.{IsRight, KeepsNames};
ghost use Rattle.er_lines.specs.Taking.{TakesReady};
ghost use Rattle.er_lines.specs.Touches.{StaysKnown};

use crate::bytes::whole_len;
use crate::faults::{ReadFault, TextKind, fault_at};
use crate::ready::{ReadyLine, Shortcut};
use crate::windows::{LineEnd, Window};
use er_device::{Device, Failed};
use std::alloc::{AllocError, Global};
use std::io::Read;
use std::marker::Model;

/// A line in front of a reader. It has no Boolean, since that would leave 7 bytes of padding, and a copy of these waits for the one before.
#[derive(Clone, Copy)]
pub struct FrontLine {
    /// Its bytes, without its LF.
    pub len: usize,
    /// How many LFs follow it: one, or none behind the last line.
    pub breaks: usize,
}

/// A reader of lines: the next line has this number, and `start` bytes of the text stand before it.
#[derive(Drop)]
pub struct LineReader {
    window: Window,
    number: u64,
    limit: u64,
    start: u64,
}

impl Model for LineReader {
    ghost use Rattle.std.specs.Prelude.{◌≤◌, ◌+◌, ◌^◌, length};
    ghost use Rattle.er_lines.specs.Places.{Place};
    ghost use Rattle.er_lines.specs.Inner.Windows.{items};

    ghost Value = { Place };

    ghost view = { λ r. record { limit = r.limit; number = r.number; start = r.start; ahead = items r.window } };

    ghost invariant = { λ r. (r.limit ≤ 2 ^ 62) × (r.start ≤ r.limit) × (r.number ≤ r.start + 1) × (r.start + length (items r.window) ≤ r.limit + 1025) };
}

impl LineReader {
    /// A reader in front of a text of at most `limit` bytes, with room for `size` bytes that are read ahead.
    pub fn new(alloc: Global, limit: u64, size: usize) -> Result<LineReader, AllocError>
        requires limit { limit ≤ 2 ^ 62 }
        requires size { (65536 ≤ size) × (size ≤ 2 ^ 30) }
        ensures limit { IfOk result (λ r. r.limit ≡ limit) }
        ensures number { IfOk result (λ r. r.number ≡ 1) }
        ensures start { IfOk result (λ r. r.start ≡ 0) }
        ensures ahead { IfOk result (λ r. length r.ahead ≡ 0) }
    {
        Ok(LineReader {
            window: Window::new(alloc, size)?,
            number: 1,
            limit,
            start: 0,
        })
    }

    /// The number of the next line, from 1.
    pub fn number(&self) -> u64
        ensures value { result ≡ self.now.number }
        ensures bound { result ≤ self.now.limit + 1 }
        ensures most_limit { self.now.limit ≤ 2 ^ 62 }
        ensures within { self.now.start ≤ self.now.limit }
        ensures most { taken_by self.now ≤ self.now.limit + bytes_past_limit }
    {
        self.number
    }

    /// A fault of the next line.
    pub fn fault(&self, kind: TextKind) -> ReadFault
        ensures { result ≡ ReadFault.Text (record { line = self.now.number; kind = kind }) }
    {
        fault_at(self.number, kind)
    }

    /// Reads on until the window is full, the limit is reached, or the text ends.
    pub fn fill<R: Read, S: Shortcut<R>>(
        &mut self,
        reader: &mut Device<R>,
        shortcut: &S,
    ) -> Result<(), Failed>
        ensures same { OnOk result (Keeps (prepend_known self.old.ahead (R.remaining (inner_of reader.old)))
            (prepend_known self.new.ahead (R.remaining (inner_of reader.new)))) }
        ensures limit { self.new.limit ≡ self.old.limit }
        ensures number { self.new.number ≡ self.old.number }
        ensures start { self.new.start ≡ self.old.start }
        ensures within { self.new.start ≤ self.new.limit }
        ensures failed { Failing (has_failed reader.old) (has_failed reader.new) result }
        ensures taken { taken_of reader.new + taken_by self.old ≤ taken_of reader.old + taken_by self.new }
        ensures most { taken_by self.new ≤ self.new.limit + bytes_past_limit }
        ensures names { KeepsNames (S.names_of (inner_of reader.old)) (S.names_of (inner_of reader.new)) }
        ensures touches { StaysKnown (S.touches (inner_of reader.old)) (S.touches (inner_of reader.new)) }
    {
        let most = (self.limit + 1025 - self.start) as usize;
        self.window.fill_up(reader, shortcut, most)
    }

    /// The whole lines that were read ahead, and none of them if they go past the limit.
    pub fn ahead(&self) -> &[u8]
        ensures front { (more : List ℕ) × (self.now.ahead ≡ result.now ++ more) }
        ensures whole { AreWhole result.now }
        ensures within { self.now.start + length result.now ≤ self.now.limit }
    {
        let bytes = self.window.as_slice();
        let len = whole_len(bytes);
        if self.start + len as u64 > self.limit {
            return &bytes[..0];
        }
        &bytes[..len]
    }

    /// The line in front, if it doesn't go past the limit.
    fn within(&self, front: FrontLine) -> Result<Option<FrontLine>, ReadFault>
        requires { front.len ≤ 1024 }
        ensures { IsWithin self.now front result }
    {
        if self.start + front.width() > self.limit {
            return Err(self.fault(TextKind::TextTooLong));
        }
        Ok(Some(front))
    }

    /// Looks for the next line, which stays the next one. None at the end of the text.
    #[inline(always)]
    pub fn find<R: Read, S: Shortcut<R>>(
        &mut self,
        reader: &mut Device<R>,
        shortcut: &S,
    ) -> Result<Option<FrontLine>, ReadFault>
        requires open { has_failed reader.old ≡ false }
        ensures found { Finds (lines_left self.old (R.remaining (inner_of reader.old))) self.new (R.remaining (inner_of reader.new)) result }
        ensures front { IfOk result (λ found. IfSome found (λ front. IsInFront self.new front)) }
        ensures limit { self.new.limit ≡ self.old.limit }
        ensures number { self.new.number ≡ self.old.number }
        ensures start { self.new.start ≡ self.old.start }
        ensures within { self.new.start ≤ self.new.limit }
        ensures failed { HasFailedBy (has_failed reader.new) result }
        ensures taken { taken_of reader.new + taken_by self.old ≤ taken_of reader.old + taken_by self.new }
        ensures most { taken_by self.new ≤ self.new.limit + bytes_past_limit }
        ensures names { KeepsNames (S.names_of (inner_of reader.old)) (S.names_of (inner_of reader.new)) }
        ensures touches { StaysKnown (S.touches (inner_of reader.old)) (S.touches (inner_of reader.new)) }
    {
        let most = (self.limit + 1025 - self.start) as usize;
        match self.window.find(reader, shortcut, most)? {
            LineEnd::Long => Err(fault_at(self.number, TextKind::LineTooLong)),
            LineEnd::Whole(len) => self.within(FrontLine { len, breaks: 1 }),
            LineEnd::Last(0) => Ok(None),
            LineEnd::Last(len) => self.within(FrontLine { len, breaks: 0 }),
        }
    }

    /// The bytes of the line in front, without its LF.
    pub fn bytes(&self, front: FrontLine) -> &[u8]
        requires { IsInFront self.now front }
        ensures { result.now ≡ take front.len self.now.ahead }
    {
        &self.window.as_slice()[..front.len]
    }

    /// Passes over the line in front.
    pub fn pass(&mut self, front: FrontLine)
        requires { IsInFront self.old front }
        ensures { self.new ≡ past self.old front }
    {
        self.number += 1;
        let width = front.width();
        self.window.consume(width as usize);
        self.start += width;
    }

    /// Passes over so many whole lines in front, which take so many bytes.
    pub fn pass_lines(&mut self, lines: u64, len: usize)
        requires lines { lines ≤ len }
        requires len { len ≤ length self.old.ahead }
        requires within { self.old.start + len ≤ self.old.limit }
        ensures { self.new ≡ past_lines self.old lines len }
    {
        self.number += lines;
        self.window.consume(len);
        self.start += len as u64;
    }

    /// Takes the next lines before they are text, and passes over them, if it is asked to, nothing was read ahead, and any of them is within the limit.
    #[inline(always)]
    pub fn take<R: Read, S: Shortcut<R>>(
        &mut self,
        reader: &mut Device<R>,
        shortcut: &S,
        is_asked: bool,
    ) -> Option<ReadyLine>
        ensures taken { TakesReady self.old self.new (R.remaining (inner_of reader.old)) (R.remaining (inner_of reader.new))
            (S.names_of (inner_of reader.new)) result }
        ensures right { IfSome result (IsRight (S.names_of (inner_of reader.new))) }
        ensures kept { KeepsNames (S.names_of (inner_of reader.old)) (S.names_of (inner_of reader.new)) }
        ensures asked { IfSome result (λ line. is_asked ≡ true) }
        ensures limit { self.new.limit ≡ self.old.limit }
        ensures within { self.new.start ≤ self.new.limit }
        ensures failed { has_failed reader.new ≡ has_failed reader.old }
        ensures counted { taken_of reader.new + taken_by self.old ≤ taken_of reader.old + taken_by self.new }
        ensures told { IfSome result (λ line. taken_of reader.new ≡ min (taken_of reader.old + (self.new.start - self.old.start)) (2 ^ 64 - 1)) }
        ensures most { taken_by self.new ≤ self.new.limit + bytes_past_limit }
        ensures touches { StaysKnown (S.touches (inner_of reader.old)) (S.touches (inner_of reader.new)) }
    {
        if !is_asked || !self.window.as_slice().is_empty() || self.limit - self.start < 4096 {
            return None;
        }
        let line = shortcut.take(reader.inner_mut())?;
        let width = line.count * line.width;
        reader.count_taken(width);
        self.number += line.count;
        self.start += width;
        Some(line)
    }
}

impl FrontLine {
    /// How many bytes of the text it takes, its LF included.
    fn width(self) -> u64
        requires { self.len < 2 ^ 63 }
        ensures { result ≡ front_width self }
    {
        self.len as u64 + u64::from(self.breaks > 0)
    }

    /// Whether an LF follows it.
    pub fn is_ended(self) -> bool
        ensures { result ≡ is_ended self }
    {
        self.breaks > 0
    }
}
