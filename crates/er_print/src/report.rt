//! Whole reports, and why one was not written.
ghost use Rattle.std.specs.Prelude.{◌≡◌, ◌++◌, ℕ, List, All, Err, IfErr, IfOk, IfSome, OnOk, false};
ghost use Rattle.er_device.specs.Device.{inner_of, has_failed, taken_of};
ghost use Rattle.er_print.specs.Printed.{HasNames, HaveNames, report_text, reports_text, text_if_there, text_of_report, told};
ghost use Rattle.er_print.specs.Written.{FailsWriting, Memory, WritesReport};

use crate::lines::{ReportKind, put_end, put_line};
use er_device::Device;
use er_report::{Report, Reports};
use er_trace::Names;
use std::alloc::{AllocError, Global};
use std::io::Write;

// What most lines take, in bytes.
const LINE: usize = 64;

/// What a call returns that puts bytes behind others.
pub type Put = Result<(), AllocError>;

/// What a call returns that builds a text whole.
pub type Built = Result<Vec<u8>, AllocError>;

/// Why a report was not written in full.
#[derive(Clone, Copy, Debug, PartialEq, Eq)]
pub enum WriteFault {
    /// No memory for the text. Nothing was written.
    Memory,
    /// The writer failed. A prefix of the text was written.
    Write,
}

/// Writes a report of the lockset rule, with these names for its numbers. The text is whole before its first byte is written.
pub fn write_report<W: Write>(
    alloc: Global,
    writer: &mut Device<W>,
    report: &Report,
    names: &Names,
) -> Result<(), WriteFault>
    requires open { has_failed writer.old ≡ false }
    requires names { All (HasNames names.now) report.now.lines.items }
    ensures bytes { WritesReport (W.contents (inner_of writer.old)) (W.contents (inner_of writer.new)) (report_text names.now (told report.now)) result }
    ensures failed { FailsWriting (has_failed writer.new) result }
    ensures taken { taken_of writer.new ≡ taken_of writer.old }
{
    write_text(writer, report_text(alloc, report, names))
}

/// Writes a text, unless there was no memory for it.
pub fn write_text<W: Write>(writer: &mut Device<W>, text: Built) -> Result<(), WriteFault>
    requires open { has_failed writer.old ≡ false }
    ensures bytes { (bytes : List ℕ) → IfOk text (λ text. text.items ≡ bytes) → WritesReport (W.contents (inner_of writer.old)) (W.contents (inner_of writer.new)) bytes result }
    ensures memory { IfErr text (λ why. result ≡ Err Memory) }
    ensures failed { FailsWriting (has_failed writer.new) result }
    ensures taken { taken_of writer.new ≡ taken_of writer.old }
{
    let Ok(text) = text else {
        return Err(WriteFault::Memory);
    };
    writer.write_all(&text).map_err(|_| WriteFault::Write)
}

/// The text of a report of the lockset rule, with these names for its numbers.
pub fn report_text(alloc: Global, report: &Report, names: &Names) -> Built
    requires { All (HasNames names.now) report.now.lines.items }
    ensures { IfOk result (λ text. text.items ≡ report_text names.now (told report.now)) }
{
    let mut text = Vec::new(alloc);
    put_report(&mut text, ReportKind::Lockset, report, names)?;
    Ok(text)
}

/// The texts of the reports that there are, one behind the other, with these names for their numbers.
#[tactic(auto, unfolding(crate::specs::Printed::reports_text))]
pub fn reports_text(alloc: Global, reports: &Reports, names: &Names) -> Built
    requires { HaveNames names.now reports.now }
    ensures { IfOk result (λ text. text.items ≡ reports_text names.now reports.now) }
{
    let mut text = Vec::new(alloc);
    put_if_there(&mut text, ReportKind::Lockset, &reports.lockset, names)?;
    put_if_there(&mut text, ReportKind::Unordered, &reports.unordered, names)?;
    Ok(text)
}

fn put_if_there(out: &mut Vec<u8>, of: ReportKind, report: &Option<Report>, names: &Names) -> Put
    requires { IfSome report.now (λ report. All (HasNames names.now) report.lines.items) }
    ensures { OnOk result (out.new.items ≡ out.old.items ++ text_if_there of names.now report.now) }
{
    match report {
        Some(report) => put_report(out, of, report, names),
        None => Ok(()),
    }
}

#[tactic(auto, unfolding(crate::specs::Printed::text_of_report))]
fn put_report(out: &mut Vec<u8>, of: ReportKind, report: &Report, names: &Names) -> Put
    requires { All (HasNames names.now) report.now.lines.items }
    ensures { OnOk result (out.new.items ≡ out.old.items ++ text_of_report of names.now (told report.now)) }
{
    // A long text that grew step by step would leave the room that it grew out of behind.
    out.reserve(report.lines.len().saturating_mul(LINE))?;
    for line in &report.lines {
        put_line(out, of, names, line)?;
    }
    put_end(out, of, report)
}
