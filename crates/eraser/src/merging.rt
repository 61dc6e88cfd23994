//! Reports of a trace's parts that are read from files, and the one report that is written of them.
ghost use Rattle.std.specs.Prelude.{◌≡◌, ◌≤◌, ◌⊎◌, ℕ, List, [], Option, Some, Ok, false, map, vec_items, IfErr, IfOk, IsOk};
ghost use Rattle.er_device.specs.Device.{inner_of, has_failed};
ghost use Rattle.er_exit.specs.Writes.{LeavesOutput};
ghost use Rattle.er_merge.specs.Merging.{Merges};
ghost use Rattle.eraser.specs.Merging.{IsMergedFor, MergedIsWhole, Stays, WritesMerged};
ghost use Rattle.eraser.specs.Stories.{FailsOutput};

use crate::traces::print_text;
use er_device::Device;
use er_exit::{Fault, heading_of};
use er_lines::line_len;
use er_merge::{MergeFault, Merged, merge_reports};
use er_parts::Part;
use er_print::{WriteFault, write_text};
use er_request::Replay;
use std::alloc::{AllocError, Global};
use std::fs::File;
use std::io::Write;
use std::rt::Files;

/// Writes the one report of the reports in these files. Returns the exit status.
pub(crate) fn merge_files<R: Files + AllocGlobal, O: Write>(
    rt: &R,
    paths: &[&str],
    output: &mut Device<O>,
) -> Result<u8, Fault>
    requires { has_failed output.old ≡ false }
    ensures status { IfOk result (λ status. status ≤ 1) }
    ensures nothing { IfErr result (LeavesOutput (O.contents (inner_of output.old)) (O.contents (inner_of output.new))) }
    ensures failed { FailsOutput (has_failed output.new) result }
{
    let texts = texts_of(rt, paths)?;
    let written = write_merged(rt.alloc(), &texts, output);
    drop(texts);
    written
}

// Writes the one report of these, once it is whole.
fn write_merged<O: Write>(
    alloc: Global,
    texts: &[Vec<u8>],
    output: &mut Device<O>,
) -> Result<u8, Fault>
    requires { has_failed output.old ≡ false }
    ensures status { IfOk result (λ status. status ≤ 1) }
    ensures nothing { IfErr result (LeavesOutput (O.contents (inner_of output.old)) (O.contents (inner_of output.new))) }
    ensures failed { FailsOutput (has_failed output.new) result }
    ensures merged { WritesMerged (map vec_items texts.now) (O.contents (inner_of output.old)) (O.contents (inner_of output.new)) result }
{
    match merge_reports(alloc, texts) {
        Ok(merged) => {
            let Merged { text, counts, .. } = merged;
            let status = u8::from(counts.races > 0);
            drop(counts);
            match write_text(output, Ok(text)) {
                Ok(()) => Ok(status),
                Err(WriteFault::Memory) => Err(Fault::Memory),
                Err(WriteFault::Write) => Err(Fault::Write),
            }
        }
        Err(MergeFault::Memory) => Err(Fault::Memory),
        Err(fault) => Err(Fault::Merging(fault)),
    }
}

/// Makes a replay of the trace that reports are of, if there are some, one of the pages of their lines, with what they count together. They have to be the
/// reports of all parts of this trace, by these rules.
#[tactic(auto, using(crate::proofs::EndLemmas::leaves_itself))]
pub(crate) fn merge_for<R: Files + AllocGlobal>(
    rt: &R,
    replay: &mut Replay<'_>,
) -> Result<(), Fault>
    ensures none { replay.old.reports.items ≡ [] → IsOk result × (replay.new ≡ replay.old) }
    ensures same { Stays replay.old replay.new }
    ensures merged { IfOk result (λ done. (replay.old.reports.items ≡ []) ⊎ IsMergedFor replay.new) }
    ensures nothing { IfErr result (λ why. (output : Option (List ℕ)) → LeavesOutput output output why) }
{
    if replay.reports.is_empty() {
        return Ok(());
    }
    let texts = texts_of(rt, &replay.reports)?;
    let made = merged_of(rt, replay, &texts);
    drop(texts);
    let merged = made?;
    take_merged(replay, merged);
    Ok(())
}

/// A replay of the pages of merged reports of all parts of a trace, with what these count, writes a form of the report of the whole trace. It does nothing.
#[allow(dead_code)]
pub(crate) fn merged_pages_report_the_whole<R: Files>()
    ensures { MergedIsWhole R.File.remaining }
{}

// Has the replay keep the pages of the merged lines, and count what the reports count together.
fn take_merged(replay: &mut Replay<'_>, merged: Merged)
    ensures same { Stays replay.old replay.new }
    ensures made { (replay.new.part ≡ Some merged.pages) × (replay.new.counts ≡ Some merged.counts) }
{
    let Merged {
        text,
        counts,
        pages,
    } = merged;
    drop(text);
    replay.part = Some(pages);
    replay.counts = Some(counts);
}

// The one report of these, if they are of the trace that is replayed, and by its rules.
fn merged_of<R: Files + AllocGlobal>(
    rt: &R,
    replay: &Replay<'_>,
    texts: &[Vec<u8>],
) -> Result<Merged, Fault>
    ensures { IfOk result (λ merged. Merges (map vec_items texts.now) (Ok merged)) }
{
    let merged = merge_reports(rt.alloc(), texts)?;
    if is_part_of(rt, replay, texts)? {
        return Ok(merged);
    }
    Err(Fault::Merging(MergeFault::Other(1)))
}

// Whether the first line of the first report says this of the trace and of the rules. All reports say the same of them.
fn is_part_of<R: Files + AllocGlobal>(
    rt: &R,
    replay: &Replay<'_>,
    texts: &[Vec<u8>],
) -> Result<bool, Fault> {
    let Some(text) = texts.first() else {
        return Ok(false);
    };
    let first = &text[..line_len(text)];
    let explain = first.ends_with(b", with reasons");
    let files = &replay.suppressions;
    let heading = heading_of(rt, Part::new(1, 1), replay.trace, files, explain)?;
    let about = heading.trim_ascii_end().strip_prefix(b"# part 1 of 1");
    let is = about.is_some_and(|about| first.ends_with(about));
    drop(heading);
    Ok(is)
}

fn texts_of<R: Files + AllocGlobal>(rt: &R, paths: &[&str]) -> Result<Vec<Vec<u8>>, Fault>
    ensures { FailsOutput false result }
{
    let mut texts = Vec::new(rt.alloc());
    for (place, path) in paths.iter().enumerate() {
        let text = text_at(rt, path, place as u64 + 1)?;
        texts.push(text).map_err(AllocError::from)?;
    }
    Ok(texts)
}

// The bytes of the file of this number. They are written into memory, so that a write fails for want of memory alone.
fn text_at<R: Files + AllocGlobal>(rt: &R, path: &str, number: u64) -> Result<Vec<u8>, Fault>
    ensures { FailsOutput false result }
{
    let file = File::open(rt, path).map_err(|_| Fault::OpenReport(number))?;
    let mut text = Device::new(Vec::new(rt.alloc()));
    match print_text(&mut Device::new(file), &mut text) {
        Ok(_) => Ok(text.into_inner()),
        Err(Fault::Read) => Err(Fault::ReadReport(number)),
        Err(_) => Err(Fault::Memory),
    }
}
