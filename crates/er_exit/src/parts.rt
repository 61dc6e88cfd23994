//! The first line of the report of a part, and what it says of the files that the part is of.
ghost use Rattle.std.specs.Prelude.{◌≡◌, ◌≤◌, None, codes, length, IfOk, IsOk, IsSome, MatchResult};
ghost use Rattle.er_exit.specs.Parts.{IsHeading};
ghost use Rattle.er_exit.specs.declared.faults.Fault.TheVariants.{NoFile};

use crate::faults::Fault;
use er_device::{Device, Failed};
use er_merge::{NO_DIGEST, PartHeading, digest_after, put_heading};
use er_parts::Part;
use std::fs;
use std::fs::File;
use std::io::Read;
use std::rt::Files;

/// The first line of the report of a part of this trace, by these files of rules, with reasons or without. It is empty if no part is given. The files are
/// read for it, and a replay reads them once more: so the trace can't be `-`, the standard input.
pub fn heading_of<R: Files + AllocGlobal>(
    rt: &R,
    part: Option<Part>,
    trace: &str,
    rules: &[&str],
    explain: bool,
) -> Result<Vec<u8>, Fault>
    ensures heading { IfOk result (λ line. IsHeading part explain line.items) }
    ensures whole { part ≡ None → IsOk result }
    ensures input { trace.now ≡ codes "-" → MatchResult result (λ line. part ≡ None) (λ why. (why ≡ NoFile) × IsSome part) }
{
    let mut line = Vec::new(rt.alloc());
    let Some(part) = part else {
        return Ok(line);
    };
    if trace == "-" {
        return Err(Fault::NoFile);
    }
    let rules = rules_of(rt, rules)?;
    let sum = extended(rt, Sum::NONE, trace, Fault::OpenTrace, Fault::Read)?;
    let heading = PartHeading {
        part: part.index(),
        parts: part.count(),
        bytes: sum.bytes,
        digest: sum.digest,
        rules: rules.digest,
        explained: explain,
    };
    put_heading(&mut line, &heading)?;
    Ok(line)
}

// How many bytes there are, and their digest.
#[derive(Clone, Copy)]
struct Sum {
    bytes: u64,
    digest: u64,
}

impl Sum {
    // That of no bytes.
    const NONE: Sum = Sum {
        bytes: 0,
        digest: NO_DIGEST,
    };
}

// The sum of the files of rules, one behind the other.
fn rules_of<R: Files>(rt: &R, paths: &[&str]) -> Result<Sum, Fault> {
    let mut sum = Sum::NONE;
    for (place, path) in paths.iter().enumerate() {
        let number = (paths.len() > 1).then_some(place as u64 + 1);
        let read = match number {
            Some(number) => Fault::ReadSuppressions(number),
            None => Fault::Read,
        };
        sum = extended(rt, sum, path, Fault::OpenSuppressions(number), read)?;
    }
    Ok(sum)
}

// The sum with the bytes of one more file. These are its faults if it can't be opened or read.
fn extended<R: Files>(
    rt: &R,
    sum: Sum,
    path: &str,
    open: Fault,
    read: Fault,
) -> Result<Sum, Fault> {
    if fs::metadata(rt, path).is_ok_and(|found| !found.is_file() && !found.is_dir()) {
        return Err(Fault::NoFile);
    }
    let file = File::open(rt, path).map_err(|_| open)?;
    with_all(&mut Device::new(file), sum).map_err(|_| read)
}

// The sum with all bytes of a reader.
fn with_all<D: Read>(source: &mut Device<D>, sum: Sum) -> Result<Sum, Failed> {
    let mut sum = sum;
    let mut buffer = [0u8; 65536];
    for _ in 0..u64::MAX {
        let count = fill(source, &mut buffer)?;
        sum.bytes = sum.bytes.saturating_add(count as u64);
        sum.digest = digest_after(sum.digest, &buffer[..count]);
        if count < buffer.len() {
            break;
        }
    }
    Ok(sum)
}

// Reads until the buffer is full, or the reader has nothing more. Returns how many bytes were read. A digest takes 8 bytes at a time, so it mustn't matter
// how many one read gives.
fn fill<D: Read>(source: &mut Device<D>, buffer: &mut [u8]) -> Result<usize, Failed>
    ensures { IfOk result (λ filled. filled ≤ length buffer.new) }
{
    let mut filled = 0;
    while filled < buffer.len() {
        let count = source.read(&mut buffer[filled..])?;
        if count == 0 {
            break;
        }
        filled += count;
    }
    Ok(filled)
}
