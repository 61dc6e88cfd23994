//! Shows on a writer how far a replay has come.
//!
//! The clock is here and nowhere below, so a replay can't depend on it.
use er_device::Device;
use er_exit::put;
use er_run::{Progress, Watch};
use std::alloc::AllocError;
use std::io::Write;
use std::rt::Clock;
use std::time::{Duration, Instant};

// How many milliseconds a line stays as it is.
const PAUSE: u128 = 500;

/// Shows how far a replay has come, about twice a second, on a writer or nowhere.
#[derive(Drop)]
pub(crate) struct Meter<'a, R, P> {
    rt: &'a R,
    /// Where it is shown, if it is.
    writer: Option<&'a mut Device<P>>,
    /// Whether each line takes the place of the one before, as on a terminal.
    on_one_line: bool,
    /// How many bytes the trace has, if that is known.
    size: Option<u64>,
    /// Whether the terminal's line has something to clear.
    has_line: bool,
    /// When the replay began. None if the clock can't be read.
    start: Option<Instant>,
    /// After how many milliseconds the next line is due.
    due: u128,
    /// How far the replay has come, if no line says so yet.
    unshown: Option<Progress>,
}

impl<'a, R: Clock + AllocGlobal, P: Write> Meter<'a, R, P> {
    /// Shows it on this writer if there is one, on one line or on a line each time, beside the size of the trace if that is known.
    pub(crate) fn new(
        rt: &'a R,
        writer: Option<&'a mut Device<P>>,
        on_one_line: bool,
        size: Option<u64>,
    ) -> Self {
        Meter {
            rt,
            writer,
            on_one_line,
            size,
            has_line: false,
            start: Instant::now(rt).ok(),
            due: PAUSE,
            unshown: None,
        }
    }

    // How many milliseconds the replay has taken. None if nothing is shown, or the clock can't be read.
    fn millis(&self) -> Option<u128> {
        if self.writer.is_none() {
            return None;
        }
        let taken: Duration = self.start?.elapsed(self.rt).ok()?;
        Some(taken.as_millis())
    }

    // Writes the line of this moment. If there is no memory for it, or a write has failed, there is no line.
    fn show(&mut self, progress: Progress, millis: u128) {
        self.unshown = None;
        if let Ok(line) = self.line_of(progress, millis) {
            self.write(line.as_bytes());
            self.has_line = true;
        }
    }

    // How far a replay has come after so many milliseconds, in words. On one line it takes the place of what stands there.
    fn line_of(&self, progress: Progress, millis: u128) -> Result<String, AllocError> {
        let (bytes, steps, races) = (progress.bytes, progress.steps, progress.races);
        let rate = u128::from(steps) * 1000 / millis.max(1);
        let share = self.share_of(bytes)?;
        let (front, back) = match self.on_one_line {
            true => ("\r", "\x1b[K"),
            false => ("", "\n"),
        };
        format!(in self.rt.alloc();
            "{front}progress: {bytes} bytes, {steps} steps, {rate} steps a second, {races} races{share}{back}"
        )
    }

    // How much of the trace was read, in hundredths, if its size is known.
    fn share_of(&self, bytes: u64) -> Result<String, AllocError> {
        match self.size {
            Some(size) if size > 0 => {
                let percent = (u128::from(bytes) * 100 / u128::from(size)).min(100);
                format!(in self.rt.alloc(); ", {percent} %")
            }
            _ => Ok(String::new(self.rt.alloc())),
        }
    }

    // Writes these bytes, unless a write has failed.
    fn write(&mut self, bytes: &[u8]) {
        if let Some(writer) = &mut self.writer {
            put(writer, bytes);
        }
    }
}

impl<'a, R: Clock + AllocGlobal, P: Write> Watch for Meter<'a, R, P> {
    fn come_to(&mut self, progress: Progress) {
        self.unshown = Some(progress);
        if let Some(millis) = self.millis()
            && millis >= self.due
        {
            self.due = millis.saturating_add(PAUSE);
            self.show(progress, millis);
        }
    }

    /// Clears the line of a terminal. Elsewhere the last line says how far the replay came in the end. What follows is a replay of its own.
    fn end(&mut self) {
        if self.on_one_line {
            if self.has_line {
                self.write(b"\r\x1b[K");
            }
        } else if let (Some(progress), Some(millis)) = (self.unshown, self.millis()) {
            self.show(progress, millis);
        }
        self.has_line = false;
        self.unshown = None;
        self.start = Instant::now(self.rt).ok();
        self.due = PAUSE;
    }
}
