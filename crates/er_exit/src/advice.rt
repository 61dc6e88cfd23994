//! What is written behind a fault's line: a hint, and what a person is shown of the file.
ghost use Rattle.std.specs.Prelude.{◌≡◌, ◌≤◌, ◌++◌, true, length, IfOk, OnOk, ◌∷◌, List, ℕ, false};
ghost use Rattle.er_device.specs.Device.{inner_of};
ghost use Rattle.er_exit.specs.Plain.{is_plain};
ghost use Rattle.er_exit.specs.Written.{AddsPlain, part_text};
ghost use Rattle.er_exit.specs.Inner.Excerpts.{line_with};

use crate::faults::put;
use crate::hints::{file_hint, row_of};
use crate::plain::{Put, put_fitting, put_quote};
use er_binary::Decoded;
use er_device::Device;
use er_text::TextFault;
use std::alloc::{AllocError, Global};
use std::fs;
use std::fs::File;
use std::io::{Read, Write};
use std::rt::Files;

/// What went wrong with a file.
#[derive(Clone, Copy)]
pub enum Trouble<'a> {
    /// A trace has this fault. It has the path of the file, or None for the standard input.
    Trace(Option<&'a str>, TextFault),
    /// A text of rules has this fault, the same way.
    Rules(Option<&'a str>, TextFault),
    /// The file of this path couldn't be opened, or not read.
    Lost(&'a str),
}

type Text = Result<Vec<u8>, AllocError>;

/// Writes what a person needs to know of a fault, unless a write has failed. It looks at the file again, but opens ordinary files alone,
/// and reads at most `byte_limit` bytes and a piece more. If it finds no memory it writes nothing; if a write fails, the rest is left out.
pub fn advise<R, E>(rt: &R, trouble: Trouble<'_>, byte_limit: u64, errors: &mut Device<E>)
where
    R: Files + AllocGlobal,
    E: Write,
    ensures plain { AddsPlain (E.contents (inner_of errors.old)) (E.contents (inner_of errors.new)) }
{
    if let Ok(text) = advice_of(rt, trouble, byte_limit) {
        put(errors, &text);
    }
}

/// How many bytes an ordinary file has. None if it is no such file: a FIFO could wait for ever.
fn size_of<R: Files>(rt: &R, path: &str) -> Option<u64> {
    match fs::metadata(rt, path) {
        Ok(found) if found.is_file() => Some(found.len()),
        _ => None,
    }
}

/// Whether the file is an ordinary one, which can be read twice.
pub fn is_ordinary<R: Files>(rt: &R, path: &str) -> bool {
    size_of(rt, path).is_some()
}

/// Opens an ordinary file. None if it is no such file, or can't be opened.
pub fn open_ordinary<R: Files>(rt: &R, path: &str) -> Option<R::File> {
    let _size = size_of(rt, path)?;
    File::open(rt, path).ok()
}

/// How many bytes the text of a trace has. None if that isn't known before all of it is read.
pub fn text_size<R: Files + AllocGlobal>(rt: &R, path: &str) -> Option<u64> {
    let mut text = Decoded::new(rt.alloc(), open_ordinary(rt, path)?);
    let _ = text.read(&mut [0]);
    let is_binary = text.is_binary();
    drop(text);
    if is_binary { None } else { size_of(rt, path) }
}

fn advice_of<R: Files + AllocGlobal>(rt: &R, trouble: Trouble<'_>, byte_limit: u64) -> Text
    ensures { IfOk result (λ text. is_plain text.items ≡ true) }
{
    let (path, of_rules, TextFault { line, kind }) = match trouble {
        Trouble::Trace(path, fault) => (path, false, fault),
        Trouble::Rules(path, fault) => (path, true, fault),
        Trouble::Lost(path) => {
            let reason = reason_of(rt, path)?;
            return text_of(rt.alloc(), path, b"", 0, b"    ", &reason);
        }
    };
    let mut excerpt = Excerpt::new(rt.alloc(), line);
    if let Some(file) = path.and_then(|path| open_ordinary(rt, path)) {
        let text = Decoded::new(rt.alloc(), file);
        excerpt.read(&mut Device::new(text), byte_limit)?;
    }
    let line = excerpt.line.as_slice();
    let (place, hint) = row_of(kind, of_rules, line);
    let hint = file_hint(&excerpt.head).unwrap_or(hint);
    let path = path.unwrap_or("");
    text_of(rt.alloc(), path, line, place, b"  hint: ", hint)
}

// The file, the faulty line if it is known, and behind this label a hint or a reason.
fn text_of(alloc: Global, path: &str, line: &[u8], place: usize, label: &[u8], note: &str) -> Text
    requires place { place ≤ length line.now }
    requires label { is_plain label.now ≡ true }
    ensures { IfOk result (λ text. is_plain text.items ≡ true) }
{
    let mut text = Vec::new(alloc);
    put_part(&mut text, b"  in ", path, 100, b":\n")?;
    put_quote(alloc, &mut text, line, place)?;
    put_part(&mut text, label, note, usize::MAX, b"\n")?;
    Ok(text)
}

// Puts as much of a text as fits in so many columns, between two others. Of an empty one it puts nothing.
fn put_part(out: &mut Vec<u8>, front: &[u8], text: &str, columns: usize, back: &[u8]) -> Put
    ensures { OnOk result (out.new.items ≡ out.old.items ++ part_text front.now text.now columns back.now) }
{
    if text.is_empty() {
        return Ok(());
    }
    out.extend_from_slice(front)?;
    put_fitting(out, text.as_bytes(), columns)?;
    out.extend_from_slice(back)
}

// How a file begins, and one of its lines, as far as its text was read.
#[derive(Drop)]
struct Excerpt {
    /// The first bytes, as many as tell what sort of file it is.
    head: Vec<u8>,
    /// The line, or of a long one its first bytes, of which there are at most 8,192.
    line: Vec<u8>,
    /// How many lines come before the one that is sought.
    before: u64,
    /// Whether the line's end was found.
    ended: bool,
}

// How many bytes of a beginning are kept.
const MOST_HEAD: usize = 8;

// How many bytes of a line are enough to show it.
const ENOUGH: usize = 4096;

impl Excerpt {
    /// Nothing of a text, of which the line of this number is sought, counted from 1.
    fn new(alloc: Global, number: u64) -> Excerpt {
        Excerpt {
            head: Vec::new(alloc),
            line: Vec::new(alloc),
            before: number.saturating_sub(1),
            ended: false,
        }
    }

    /// Reads up to the line's end, and at most a piece more than `byte_limit` bytes. A failed read ends the text.
    fn read<D: Read>(&mut self, reader: &mut Device<D>, byte_limit: u64) -> Put {
        let mut buffer = [0u8; 4096];
        for _ in 0..u64::MAX {
            let Ok(count) = reader.read(&mut buffer) else {
                break;
            };
            let piece = &buffer[..count];
            let more = MOST_HEAD.saturating_sub(self.head.len());
            self.head.extend_from_slice(&piece[..count.min(more)])?;
            self.take_all(piece)?;
            let is_shown = self.ended || self.line.len() >= ENOUGH;
            if count == 0 || is_shown || reader.taken() > byte_limit {
                break;
            }
        }
        Ok(())
    }

    fn take_all(&mut self, piece: &[u8]) -> Put
        ensures { OnOk result ((rest : List ℕ) → line_with self.new.before self.new.ended self.new.line.items rest ≡ line_with self.old.before self.old.ended self.old.line.items (piece.now ++ rest)) }
    {
        for byte in piece {
            self.take(*byte)?;
        }
        Ok(())
    }

    fn take(&mut self, byte: u8) -> Put
        ensures { OnOk result ((rest : List ℕ) → line_with self.new.before self.new.ended self.new.line.items rest ≡ line_with self.old.before self.old.ended self.old.line.items (byte ∷ rest)) }
    {
        match (self.before, byte) {
            _ if self.ended => {}
            (0, b'\n') => self.ended = true,
            (0, _) => self.line.push(byte)?,
            (_, b'\n') => self.before -= 1,
            _ => {}
        }
        Ok(())
    }
}

// Why a file can't be had, as the system says. Empty if it says nothing.
fn reason_of<R: Files + AllocGlobal>(rt: &R, path: &str) -> Result<String, AllocError> {
    match fs::metadata(rt, path) {
        Ok(found) if found.is_dir() => String::from_str(rt.alloc(), "it is a folder"),
        Ok(found) if found.is_file() => match File::open(rt, path) {
            Ok(_) => Ok(String::new(rt.alloc())),
            Err(error) => error.to_string(rt.alloc()),
        },
        Ok(_) => Ok(String::new(rt.alloc())),
        Err(error) => error.to_string(rt.alloc()),
    }
}
