//! The bytes of a text that were read and aren't passed over yet.
ghost use Rattle.std.specs.Prelude.{◌≡◌, ◌≢◌, ◌+◌, ◌-◌, ◌^◌, ◌<◌, ◌≤◌, ℕ, List, Option, length, take, drop, slice_index, All, IfOk, OnErr, OnOk, max, vec_len, ◌++◌};
ghost use Rattle.std.specs.Io.KnownBytes.{Keeps, Consumes, IsAtEnd, prepend_known};
ghost use Rattle.er_device.specs.Device.{inner_of, has_failed, taken_of, Failing};
ghost use Rattle.er_lines.specs.Ready.{KeepsNames};
ghost use Rattle.er_lines.specs.Touches.{StaysKnown};

use crate::bytes::line_len;
use crate::ready::Shortcut;
use er_device::{Device, Failed};
use std::alloc::{AllocError, Global};
use std::io::Read;

/// The most bytes that a line has, without its LF.
const LINE: usize = 1024;

/// Where the line in front of a window ends.
#[derive(Clone, Copy, Debug, PartialEq, Eq)]
pub(crate) enum LineEnd {
    /// After this many bytes, with an LF.
    Whole(usize),
    /// After this many bytes, with the text.
    Last(usize),
    /// After more than 1,024 bytes.
    Long,
}

/// The bytes that were read and have not been passed over yet.
#[derive(Drop)]
pub(crate) struct Window {
    bytes: Vec<u8>,
    start: usize,
    end: usize,
    ghost wide: { 65536 ≤ vec_len bytes },
    ghost narrow: { vec_len bytes ≤ 2 ^ 30 },
    ghost ordered: { start ≤ end },
    ghost within: { end ≤ vec_len bytes },
}

impl Window {
    ghost use Rattle.er_lines.specs.Inner.Windows.{items, Shows};

    /// A window with room for so many bytes.
    pub(crate) fn new(alloc: Global, size: usize) -> Result<Window, AllocError>
        requires { (65536 ≤ size) × (size ≤ 2 ^ 30) }
        ensures { IfOk result (λ w. length (items w) ≡ 0) }
    {
        Ok(Window {
            bytes: vec![in alloc; 0; size]?,
            start: 0,
            end: 0,
        })
    }

    pub(crate) fn as_slice(&self) -> &[u8]
        ensures value { result.now ≡ items self.now }
        ensures fits { length result.now ≤ 2 ^ 30 }
    {
        &self.bytes[self.start..self.end]
    }

    pub(crate) fn consume(&mut self, count: usize)
        requires { count ≤ length (items self.old) }
        ensures { items self.new ≡ drop count (items self.old) }
    {
        self.start += count;
    }

    fn move_to_front(&mut self)
        ensures items { items self.new ≡ items self.old }
        ensures start { self.new.start ≡ 0 }
        ensures end { self.new.end ≡ length (items self.old) }
        ensures room { vec_len self.new.bytes ≡ vec_len self.old.bytes }
    {
        let (start, end) = (self.start, self.end);
        self.bytes.copy_within(start..end, 0);
        self.start = 0;
        self.end = end - start;
    }

    /// One read behind what the window shows, up to this place of it.
    fn read<R: Read, S: Shortcut<R>>(
        &mut self,
        reader: &mut Device<R>,
        shortcut: &S,
        stop: usize,
    ) -> Result<usize, Failed>
        requires front { self.old.start ≡ 0 }
        requires room { self.old.end < stop }
        requires within { stop ≤ vec_len self.old.bytes }
        ensures bytes { IfOk result (λ n. (more : List ℕ) × (length more ≡ n) × (items self.new ≡ items self.old ++ more)
            × Consumes (R.remaining (inner_of reader.old)) (R.remaining (inner_of reader.new)) more) }
        ensures start { self.new.start ≡ 0 }
        ensures stop { IfOk result (λ n. (self.new.end ≡ self.old.end + n) × (self.new.end ≤ stop)) }
        ensures room { vec_len self.new.bytes ≡ vec_len self.old.bytes }
        ensures end { IfOk result (λ n. n ≡ 0 → IsAtEnd (R.remaining (inner_of reader.new))) }
        ensures failed { Failing (has_failed reader.old) (has_failed reader.new) result }
        ensures taken { IfOk result (λ n. taken_of reader.new ≤ taken_of reader.old + n) }
        ensures taken_err { OnErr result (taken_of reader.new ≡ taken_of reader.old) }
        ensures kept { OnErr result (items self.new ≡ items self.old) }
        ensures names { KeepsNames (S.names_of (inner_of reader.old)) (S.names_of (inner_of reader.new)) }
        ensures touches { StaysKnown (S.touches (inner_of reader.old)) (S.touches (inner_of reader.new)) }
    {
        let end = self.end;
        let Ok(count) = shortcut.read(reader.inner_mut(), &mut self.bytes[end..stop]) else {
            return Err(reader.fail());
        };
        reader.count_taken(count as u64);
        self.end = end + count;
        Ok(count)
    }

    /// Reads until the window is full, or has `most` bytes, or the text ends.
    pub(crate) fn fill_up<R: Read, S: Shortcut<R>>(
        &mut self,
        reader: &mut Device<R>,
        shortcut: &S,
        most: usize,
    ) -> Result<(), Failed>
        requires held { length (items self.old) ≤ most }
        ensures same { OnOk result (Keeps (prepend_known (items self.old) (R.remaining (inner_of reader.old)))
            (prepend_known (items self.new) (R.remaining (inner_of reader.new)))) }
        ensures most { length (items self.new) ≤ most }
        ensures failed { Failing (has_failed reader.old) (has_failed reader.new) result }
        ensures taken { taken_of reader.new + length (items self.old) ≤ taken_of reader.old + length (items self.new) }
        ensures names { KeepsNames (S.names_of (inner_of reader.old)) (S.names_of (inner_of reader.new)) }
        ensures touches { StaysKnown (S.touches (inner_of reader.old)) (S.touches (inner_of reader.new)) }
    {
        self.move_to_front();
        let stop = self.bytes.len().min(most);
        while self.end < stop {
            if self.read(reader, shortcut, stop)? == 0 {
                return Ok(());
            }
        }
        Ok(())
    }

    /// Where the line in front ends. It leaves at most `most` bytes in the window.
    #[inline(always)]
    pub(crate) fn find<R: Read, S: Shortcut<R>>(
        &mut self,
        reader: &mut Device<R>,
        shortcut: &S,
        most: usize,
    ) -> Result<LineEnd, Failed>
        requires most { 1024 < most }
        requires held { length (items self.old) ≤ most }
        ensures front { IfOk result (λ front. Shows front (items self.new) (R.remaining (inner_of reader.new))) }
        ensures same { OnOk result (Keeps (prepend_known (items self.old) (R.remaining (inner_of reader.old)))
            (prepend_known (items self.new) (R.remaining (inner_of reader.new)))) }
        ensures most { length (items self.new) ≤ most }
        ensures failed { Failing (has_failed reader.old) (has_failed reader.new) result }
        ensures taken { taken_of reader.new + length (items self.old) ≤ taken_of reader.old + length (items self.new) }
        ensures names { KeepsNames (S.names_of (inner_of reader.old)) (S.names_of (inner_of reader.new)) }
        ensures touches { StaysKnown (S.touches (inner_of reader.old)) (S.touches (inner_of reader.new)) }
    {
        loop {
            let bytes = self.as_slice();
            let len = line_len(bytes);
            if len > LINE {
                return Ok(LineEnd::Long);
            }
            if len < bytes.len() {
                return Ok(LineEnd::Whole(len));
            }
            self.move_to_front();
            let stop = self.bytes.len().min(most);
            if self.read(reader, shortcut, stop)? == 0 {
                return Ok(LineEnd::Last(len));
            }
        }
    }
}
