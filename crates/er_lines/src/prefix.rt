//! A reader that ends before a line.
ghost use Rattle.std.specs.Prelude.{◌≡◌, [], length, option_map};
ghost use Rattle.std.specs.Io.{ReadsAtMost};
ghost use Rattle.std.specs.Io.KnownBytes.{ReadConsumes};
ghost use Rattle.er_lines.specs.Prefix.{cut_off, first_lines, lines_left};
ghost use Rattle.er_lines.specs.Inner.Prefixes.{lines_behind};
ghost use Rattle.er_lines.specs.Touches.{StaysKnown};

use crate::ready::{NameKind, ReadyLine, Shortcut, Touch};
use std::alloc::AllocError;
use std::io;
use std::io::Read;

/// A reader of the first lines of another one, which it reads by a shortcut of that. Behind the last of them it ends.
#[derive(Drop)]
pub struct Prefix<'s, R, S> {
    inner: R,
    shortcut: &'s S,
    lines: u64,
}

impl<'s, R, S> Prefix<'s, R, S> {
    /// A reader of the first lines of what the other gives: so many, or all if there are fewer.
    pub fn new(inner: R, shortcut: &'s S, lines: u64) -> Prefix<'s, R, S>
        ensures inner { cut_off result ≡ inner }
        ensures lines { lines_left result ≡ lines }
    {
        Prefix {
            inner,
            shortcut,
            lines,
        }
    }

    // Passes over the next bytes, and says how many of them belong to the lines.
    fn pass(&mut self, bytes: &[u8]) -> usize
        ensures count { result ≡ length (first_lines self.old.lines bytes.now) }
        ensures lines { self.new.lines ≡ lines_behind bytes.now self.old.lines }
        ensures inner { self.new.inner ≡ self.old.inner }
    {
        for (place, byte) in bytes.iter().enumerate() {
            if self.lines == 0 {
                return place;
            }
            if *byte == b'\n' {
                self.lines -= 1;
            }
        }
        bytes.len()
    }
}

impl<R: Read, S: Shortcut<R>> Read for Prefix<'_, R, S> {
    ghost remaining = { λ prefix. option_map (first_lines (lines_left prefix)) (R.remaining (cut_off prefix)) };

    fn read(&mut self, buffer: &mut [u8]) -> io::Result<usize>
        ensures bound { ReadsAtMost result buffer.new }
        ensures bytes { ReadConsumes (option_map (first_lines (lines_left self.old)) (R.remaining (cut_off self.old))) (option_map (first_lines (lines_left self.new)) (R.remaining (cut_off self.new))) result buffer.new }
        ensures touches { StaysKnown (S.touches (cut_off self.old)) (S.touches (cut_off self.new)) }
    {
        if self.lines == 0 {
            return Ok(0);
        }
        let count = self.shortcut.read(&mut self.inner, buffer)?;
        Ok(self.pass(&buffer[..count]))
    }
}

/// Takes no line of it, and hands out what the other reader has to hand out.
#[derive(Clone, Copy)]
pub struct ByPrefix;

impl<R: Read, S: Shortcut<R>> Shortcut<Prefix<'_, R, S>> for ByPrefix {
    ghost names_of = { λ prefix kind number. [] };

    ghost touches = { λ prefix. S.touches (cut_off prefix) };

    fn read(&self, prefix: &mut Prefix<'_, R, S>, buffer: &mut [u8]) -> io::Result<usize> {
        prefix.read(buffer)
    }

    fn takes_most(&self, _prefix: &Prefix<'_, R, S>) -> bool {
        false
    }

    fn take(&self, _prefix: &mut Prefix<'_, R, S>) -> Option<ReadyLine> {
        None
    }

    fn hand_out(
        &self,
        prefix: &mut Prefix<'_, R, S>,
        others: &mut Vec<Touch>,
    ) -> Result<u64, AllocError> {
        prefix.shortcut.hand_out(&mut prefix.inner, others)
    }

    fn name<'a>(&self, _prefix: &'a Prefix<'_, R, S>, _kind: NameKind, _number: u64) -> &'a [u8] {
        b"".as_slice()
    }

    fn kept<'a>(&self, _prefix: &'a Prefix<'_, R, S>) -> Option<&'a [u8]> {
        None
    }
}
