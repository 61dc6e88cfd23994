//! A reader that keeps what it gave.
ghost use Rattle.std.specs.Prelude.{◌≡◌, [], None, Some, option_map, IfOk, OnErr, take};
ghost use Rattle.std.specs.Io.{ReadsAtMost};
ghost use Rattle.std.specs.Io.KnownBytes.{ReadConsumes};
ghost use Rattle.er_device.specs.Keeping.{GoesOn, bytes_of, kept_by, kept_source};

use std::alloc::Global;
use std::io;
use std::io::Read;

/// A reader that gives what another one gives, and keeps it once that is asked for. If it finds no memory, it goes on giving, and keeps nothing.
#[derive(Drop)]
pub struct Keeping<R> {
    inner: R,
    kept: Option<Vec<u8>>,
}

impl<R> Keeping<R> {
    /// A reader that keeps nothing.
    pub fn new(inner: R) -> Keeping<R>
        ensures kept { kept_by result ≡ None }
        ensures inner { kept_source result ≡ inner }
    {
        Keeping { inner, kept: None }
    }

    /// Keeps what it gives from now on.
    pub fn begin(&mut self, alloc: Global)
        ensures kept { kept_by self.new ≡ Some [] }
        ensures inner { kept_source self.new ≡ kept_source self.old }
    {
        self.kept = Some(Vec::new(alloc));
    }

    /// All that it gave since it keeps that. None if it isn't to keep any, or there was no memory for it.
    pub fn kept(&self) -> Option<&[u8]>
        ensures { option_map bytes_of result ≡ kept_by self.now }
    {
        match &self.kept {
            Some(kept) => Some(kept),
            None => None,
        }
    }

    fn keep(&mut self, bytes: &[u8])
        ensures kept { GoesOn (kept_by self.old) (kept_by self.new) bytes.now }
        ensures inner { self.new.inner ≡ self.old.inner }
    {
        if let Some(kept) = &mut self.kept
            && kept.extend_from_slice(bytes).is_err()
        {
            self.kept = None;
        }
    }
}

impl<R: Read> Read for Keeping<R> {
    ghost remaining = { λ keeping. R.remaining (kept_source keeping) };

    fn read(&mut self, buffer: &mut [u8]) -> io::Result<usize>
        ensures bound { ReadsAtMost result buffer.new }
        ensures bytes { ReadConsumes (R.remaining (kept_source self.old)) (R.remaining (kept_source self.new)) result buffer.new }
        ensures kept { IfOk result (λ n. GoesOn (kept_by self.old) (kept_by self.new) (take n buffer.new)) }
        ensures err { OnErr result (kept_by self.new ≡ kept_by self.old) }
    {
        let count = self.inner.read(buffer)?;
        self.keep(&buffer[..count]);
        Ok(count)
    }
}
