//! Traces that are opened by their path, and what is written of one that is not replayed: its text, or the story of one step.
ghost use Rattle.std.specs.Prelude.{◌≡◌, ◌≢◌, ◌⊎◌, ℕ, List, cond, false, true, codes, Err, IfErr, IfOk, IfSome, OnOk};
ghost use Rattle.std.specs.Io.KnownBytes.{Keeps};
ghost use Rattle.er_binary.specs.Decoded.{is_binary, is_noting, source_of, to_come, to_touch};
ghost use Rattle.er_binary.specs.Meaning.{meant};
ghost use Rattle.er_device.specs.Device.{inner_of, has_failed};
ghost use Rattle.er_exit.specs.declared.faults.Fault.TheVariants.{OpenTrace};
ghost use Rattle.er_exit.specs.Statuses.{fault_status};
ghost use Rattle.er_exit.specs.Writes.{LeavesOutput};
ghost use Rattle.eraser.specs.Files.{OfFile};
ghost use Rattle.eraser.specs.Inner.Opened.{IsUnread};
ghost use Rattle.eraser.specs.Printing.{WritesText};
ghost use Rattle.eraser.specs.Stories.{EndsStory, FailsOutput, IsStoryFault, WritesStory};

use crate::command::keys_from;
use er_binary::Decoded;
pub(crate) use er_binary::Directly;
use er_device::Device;
use er_exit::Fault;
use er_print::WriteFault;
use er_request::Explain;
use er_story::{tell_line, write_story};
use er_text::read_trace_keyed;
use er_trace::{NameKeys, Trace};
use std::alloc::Global;
use std::fs::File;
use std::io::{Read, Write};
use std::random::RandomSource;
use std::rt::Files;

type Told = Result<u8, Fault>;

/// Opens a trace of any form, to be read as text.
pub(crate) fn open_trace<R: Files + AllocGlobal>(
    rt: &R,
    path: &str,
) -> Result<Decoded<R::File>, Fault>
    ensures fresh { IfOk result IsUnread }
    ensures fault { IfErr result (λ why. why ≡ OpenTrace) }
{
    let file = File::open(rt, path).map_err(|_| Fault::OpenTrace)?;
    Ok(Decoded::new(rt.alloc(), file))
}

/// Has what accesses touch noted, and the bytes of the trace kept, if that is asked for. Whoever reads then has handed out what is noted now and then.
pub(crate) fn prepare<D>(source: &mut Device<Decoded<D>>, notes: bool, keeps: bool)
    ensures text { (bytes : List ℕ) → to_come (inner_of source.new) bytes ≡ to_come (inner_of source.old) bytes }
    ensures source { source_of (inner_of source.new) ≡ source_of (inner_of source.old) }
    ensures failed { has_failed source.new ≡ has_failed source.old }
    ensures touches { (bytes : List ℕ) → to_touch (inner_of source.new) bytes ≡ to_touch (inner_of source.old) bytes }
    ensures noting { is_noting (inner_of source.new) ≡ cond notes (cond (is_binary (inner_of source.old)) (is_noting (inner_of source.old)) true) (is_noting (inner_of source.old)) }
    ensures unasked { notes ≡ false → keeps ≡ false → source.new ≡ source.old }
{
    if notes {
        source.inner_mut().note_touches();
    }
    if keeps {
        source.inner_mut().keep();
    }
}

/// Writes the text that a trace means. Returns the exit status.
pub(crate) fn print_trace<R: Files + AllocGlobal, I: Read, O: Write>(
    rt: &R,
    trace: &str,
    input: &mut Device<I>,
    output: &mut Device<O>,
) -> Result<u8, Fault>
    requires output { has_failed output.old ≡ false }
    ensures status { IfOk result (λ status. status ≡ 0) }
    ensures fault { IfErr result (λ why. fault_status why ≡ 4) }
    ensures text { trace.now ≡ codes "-" → IfSome (I.remaining (inner_of input.old)) (λ text. WritesText text (O.contents (inner_of output.old)) (O.contents (inner_of output.new)) result) }
    ensures file { trace.now ≢ codes "-" → ((result ≡ Err OpenTrace) × Keeps (O.contents (inner_of output.old)) (O.contents (inner_of output.new))) ⊎ OfFile R.File.remaining (λ bytes. WritesText (meant bytes) (O.contents (inner_of output.old)) (O.contents (inner_of output.new)) result) }
    ensures failed { FailsOutput (has_failed output.new) result }
{
    if trace == "-" {
        return print_text(input, output);
    }
    let mut source = Device::new(open_trace(rt, trace)?);
    let printed = print_text(&mut source, output);
    drop(source);
    printed
}

/// Writes the story of the step that was asked for. Returns the exit status.
pub(crate) fn explain_step<R: Files + RandomSource + AllocGlobal, I: Read, O: Write>(
    rt: &R,
    asked: &Explain<'_>,
    input: &mut Device<I>,
    output: &mut Device<O>,
) -> Told
    requires input { has_failed input.old ≡ false }
    requires output { has_failed output.old ≡ false }
    ensures status { IfOk result (λ status. status ≡ 0) }
    ensures story { asked.now.trace.now ≡ codes "-" → IfSome (I.remaining (inner_of input.old)) (λ text. EndsStory text asked.now.byte_limit asked.now.line (O.contents (inner_of output.old)) (O.contents (inner_of output.new)) result) }
    ensures file { asked.now.trace.now ≢ codes "-" → (result ≡ Err OpenTrace) ⊎ OfFile R.File.remaining (λ bytes. EndsStory (meant bytes) asked.now.byte_limit asked.now.line (O.contents (inner_of output.old)) (O.contents (inner_of output.new)) result) }
    ensures nothing { IfErr result (LeavesOutput (O.contents (inner_of output.old)) (O.contents (inner_of output.new))) }
    ensures failed { FailsOutput (has_failed output.new) result }
{
    let keys = keys_from(rt);
    if asked.trace == "-" {
        return explain_from(rt.alloc(), asked, keys, input, output);
    }
    let mut source = Device::new(open_trace(rt, asked.trace)?);
    let told = explain_from(rt.alloc(), asked, keys, &mut source, output);
    drop(source);
    told
}

/// Writes all that a reader gives.
pub(crate) fn print_text<D: Read, O: Write>(
    source: &mut Device<D>,
    output: &mut Device<O>,
) -> Result<u8, Fault>
    requires output { has_failed output.old ≡ false }
    ensures status { IfOk result (λ status. status ≡ 0) }
    ensures fault { IfErr result (λ why. fault_status why ≡ 4) }
    ensures text { IfSome (D.remaining (inner_of source.old)) (λ text. WritesText text (O.contents (inner_of output.old)) (O.contents (inner_of output.new)) result) }
    ensures failed { FailsOutput (has_failed output.new) result }
{
    let mut buffer = [0u8; 65536];
    for _ in 0..u64::MAX {
        let Ok(count) = source.read(&mut buffer) else {
            return Err(Fault::Read);
        };
        if count == 0 {
            return Ok(0);
        }
        let Ok(()) = output.write_all(&buffer[..count]) else {
            return Err(Fault::Write);
        };
    }
    Err(Fault::Read)
}

// Reads the trace that the reader gives, and writes the story of the step on a line.
fn explain_from<D: Read, O: Write>(
    alloc: Global,
    asked: &Explain<'_>,
    keys: NameKeys,
    source: &mut Device<D>,
    output: &mut Device<O>,
) -> Told
    requires source { has_failed source.old ≡ false }
    requires output { has_failed output.old ≡ false }
    ensures status { IfOk result (λ status. status ≡ 0) }
    ensures story { IfSome (D.remaining (inner_of source.old)) (λ text. EndsStory text asked.now.byte_limit asked.now.line (O.contents (inner_of output.old)) (O.contents (inner_of output.new)) result) }
    ensures nothing { IfErr result (LeavesOutput (O.contents (inner_of output.old)) (O.contents (inner_of output.new))) }
    ensures failed { FailsOutput (has_failed output.new) result }
{
    match read_trace_keyed(alloc, source, asked.byte_limit, keys) {
        Ok(trace) => {
            let written = explain_in(alloc, &trace, asked.line, output);
            drop(trace);
            written
        }
        Err(fault) => Err(Fault::of_trace(fault)),
    }
}

// Writes the story of the step on a line of a trace.
fn explain_in<O: Write>(alloc: Global, trace: &Trace, line: u64, output: &mut Device<O>) -> Told
    requires { has_failed output.old ≡ false }
    ensures status { IfOk result (λ status. status ≡ 0) }
    ensures story { OnOk result (WritesStory (O.contents (inner_of output.old)) (O.contents (inner_of output.new)) trace.now line) }
    ensures nothing { IfErr result (LeavesOutput (O.contents (inner_of output.old)) (O.contents (inner_of output.new))) }
    ensures fault { IfErr result (IsStoryFault trace.now line) }
    ensures failed { FailsOutput (has_failed output.new) result }
{
    let Some(story) = tell_line(alloc, trace, line)? else {
        return Err(Fault::NoStep(line));
    };
    let written = write_story(alloc, output, &story, trace.names());
    drop(story);
    match written {
        Ok(()) => Ok(0),
        Err(WriteFault::Memory) => Err(Fault::Memory),
        Err(WriteFault::Write) => Err(Fault::Write),
    }
}
