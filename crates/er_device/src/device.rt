//! A reader or a writer, with what became of its calls.
ghost use Rattle.std.specs.Prelude.{◌≡◌, ◌+◌, ◌-◌, ◌^◌, min, true, ◌<◌, ◌≤◌, length, IfOk};
ghost use Rattle.std.specs.Io.{ReadsAtMost};
ghost use Rattle.std.specs.Io.KnownBytes.{ReadConsumes, WriteAppends};
ghost use Rattle.std.specs.Borrow.{Lends, sem};
ghost use Rattle.er_device.specs.contracts.device.Device.{the_row};
ghost use Rattle.er_device.specs.Device.{inner_of, has_failed, taken_of, fresh, with_inner, more_taken, failing, Failing, CountsTaken, WritesPrefix};

use std::io::{Read, Write};

/// A reader or a writer that remembers whether one of its calls failed, and how many bytes were taken from it: those that its reads gave, and those
/// that its caller counted. A call through `inner_mut` goes past both: the caller counts what it takes there, and says if it failed.
#[derive(Debug, Drop)]
pub struct Device<D> {
    inner: D,
    failed: bool,
    taken: u64,
}

/// A call of a device failed. Why is not told.
#[derive(Clone, Copy, Debug, PartialEq, Eq)]
pub struct Failed;

impl<D> Device<D> {
    /// A device that has made no call yet.
    pub fn new(inner: D) -> Self
        ensures { result ≡ fresh inner }
    {
        Device {
            inner,
            failed: false,
            taken: 0,
        }
    }

    /// Whether a call failed, or a write took no byte.
    pub fn failed(&self) -> bool
        ensures { result ≡ has_failed self.now }
    {
        self.failed
    }

    /// How many bytes its reads gave and its caller counted, up to the greatest number.
    pub fn taken(&self) -> u64
        ensures { result ≡ taken_of self.now }
    {
        self.taken
    }

    /// Counts bytes that were taken from what it wraps without a read of the device.
    #[inline(always)]
    pub fn count_taken(&mut self, count: u64)
        ensures { self.new ≡ more_taken self.old count }
    {
        self.taken = self.taken.saturating_add(count);
    }

    /// What it wraps, for a look.
    #[inline(always)]
    pub fn inner(&self) -> &D
        ensures { result.now ≡ inner_of self.now }
    {
        &self.inner
    }

    /// What it wraps, for a call of its own, which changes neither `failed` nor `taken`.
    #[inline(always)]
    pub fn inner_mut(&mut self) -> &mut D
        ensures* writes_back { sem 𝓛 (Lends (the_row D.row) D.row self.entry result (with_inner self.old)) }
        ensures value { result.now ≡ inner_of self.old }
    {
        &mut self.inner
    }

    /// What it wraps.
    pub fn into_inner(self) -> D
        ensures { result ≡ inner_of self }
    {
        let Device { inner, .. } = self;
        inner
    }

    /// Remembers that a call of what it wraps failed, which its caller made there.
    pub fn fail(&mut self) -> Failed
        ensures { self.new ≡ failing self.old }
    {
        self.failed = true;
        Failed
    }
}

impl<R: Read> Device<R> {
    /// One read, of as many bytes as its result says. Every error is final, an interruption among them. No byte means that the text
    /// ended, or that the buffer has no room.
    pub fn read(&mut self, buffer: &mut [u8]) -> Result<usize, Failed>
        ensures bound { ReadsAtMost result buffer.new }
        ensures bytes { ReadConsumes (R.remaining (inner_of self.old)) (R.remaining (inner_of self.new)) result buffer.new }
        ensures failed { Failing (has_failed self.old) (has_failed self.new) result }
        ensures taken { CountsTaken (taken_of self.old) (taken_of self.new) result }
    {
        match self.inner.read(buffer) {
            Ok(count) => {
                self.taken = self.taken.saturating_add(count as u64);
                Ok(count)
            }
            Err(_) => Err(self.fail()),
        }
    }
}

impl<W: Write> Device<W> {
    /// One write, which takes some of the bytes.
    fn write(&mut self, bytes: &[u8]) -> Result<usize, Failed>
        ensures bound { IfOk result (λ n. (0 < n) × (n ≤ length bytes.now)) }
        ensures bytes { WriteAppends (W.contents (inner_of self.old)) (W.contents (inner_of self.new)) result bytes.now }
        ensures failed { Failing (has_failed self.old) (has_failed self.new) result }
        ensures taken { taken_of self.new ≡ taken_of self.old }
    {
        match self.inner.write(bytes) {
            Ok(count) if count > 0 => Ok(count),
            _ => Err(self.fail()),
        }
    }

    /// Writes all of the bytes, or a prefix of them where it fails. Every error is final, and so is a write that takes no byte.
    pub fn write_all(&mut self, bytes: &[u8]) -> Result<(), Failed>
        ensures bytes { WritesPrefix (W.contents (inner_of self.old)) (W.contents (inner_of self.new)) bytes.now result }
        ensures failed { Failing (has_failed self.old) (has_failed self.new) result }
        ensures taken { taken_of self.new ≡ taken_of self.old }
    {
        let mut at = 0;
        while at < bytes.len() {
            at += self.write(&bytes[at..])?;
        }
        Ok(())
    }
}
