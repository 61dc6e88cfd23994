//! Bytes of files, written so that a terminal takes none of them for a command.
ghost use Rattle.std.specs.Prelude.{◌≡◌, ◌++◌, ◌<◌, ◌≤◌, length, map, take, OnOk, ◌-◌, IfOk};
ghost use Rattle.er_exit.specs.Plain.{fitting, shown, shown_byte};
ghost use Rattle.er_exit.specs.Quote.{front_mark, start_of};
ghost use Rattle.er_exit.specs.Written.{line_text};

use er_lines::hex_digit;
use std::alloc::{AllocError, Global};

/// What it comes to that bytes are put behind others.
pub(crate) type Put = Result<(), AllocError>;

/// Puts a space for each column that the bytes take where they are shown.
fn put_spaces(out: &mut Vec<u8>, bytes: &[u8]) -> Put
    ensures { OnOk result (out.new.items ≡ out.old.items ++ map (λ byte. 32) (shown bytes.now)) }
{
    for byte in bytes {
        let (_, width) = shown_byte(*byte);
        out.extend_from_slice(&b"    "[..width])?;
    }
    Ok(())
}

// A byte as it is shown: so many of four bytes.
#[tactic(auto, unfolding(crate::specs::Plain::shown_byte))]
fn shown_byte(byte: u8) -> ([u8; 4], usize)
    ensures value { take result.1 result.0 ≡ shown_byte byte }
    ensures width { result.1 ≡ length (shown_byte byte) }
    ensures few { result.1 ≤ 4 }
{
    if byte >= 32 && byte <= 126 {
        return ([byte, 0, 0, 0], 1);
    }
    let (high, low) = (hex_digit(byte / 16 % 16), hex_digit(byte % 16));
    match byte {
        9 => ([b'\\', b't', 0, 0], 2),
        13 => ([b'\\', b'r', 0, 0], 2),
        _ => ([b'\\', b'x', high, low], 4),
    }
}

/// Puts as many of the bytes as fit in so many columns, and two dots if some are left.
#[tactic(auto, unfolding(crate::specs::Plain::fitting))]
pub(crate) fn put_fitting(out: &mut Vec<u8>, bytes: &[u8], columns: usize) -> Put
    ensures { OnOk result (out.new.items ≡ out.old.items ++ fitting columns bytes.now) }
{
    match bytes {
        [] => Ok(()),
        [first, rest @ ..] => {
            let (shown, width) = shown_byte(*first);
            if columns < width {
                return out.extend_from_slice(b"..");
            }
            out.extend_from_slice(&shown[..width])?;
            put_fitting(out, rest, columns - width)
        }
    }
}

/// Puts the line, cut to 106 columns, and a mark under the byte at a place. Of an empty line it puts nothing.
pub(crate) fn put_quote(alloc: Global, out: &mut Vec<u8>, line: &[u8], place: usize) -> Put
    requires { place ≤ length line.now }
    ensures { OnOk result (out.new.items ≡ out.old.items ++ line_text line.now place) }
{
    if line.is_empty() {
        return Ok(());
    }
    let start = start_of(alloc, line, place)?;
    let rest = &line[start..];
    out.extend_from_slice(b"    ")?;
    out.extend_from_slice(front_mark(start))?;
    put_fitting(out, rest, 100)?;
    out.extend_from_slice(b"\n")?;
    out.extend_from_slice(b"    ")?;
    put_spaces(out, front_mark(start))?;
    put_spaces(out, &rest[..place - start])?;
    out.extend_from_slice(b"^\n")
}

// From where the line is quoted, so that the place is not too far to the right.
#[tactic(auto, using(crate::proofs::SpaceLemmas::blank_len))]
fn start_of(alloc: Global, line: &[u8], place: usize) -> Result<usize, AllocError>
    requires { place ≤ length line.now }
    ensures value { IfOk result (λ start. start ≡ start_of line.now place) }
    ensures within { IfOk result (λ start. start ≤ place) }
{
    let mut before = Vec::new(alloc);
    put_spaces(&mut before, &line[..place])?;
    if before.len() <= 90 {
        return Ok(0);
    }
    Ok(place.saturating_sub(20))
}

fn front_mark(start: usize) -> &'static [u8]
    ensures { result.now ≡ front_mark start }
{
    match start {
        0 => b"".as_slice(),
        _ => b"..".as_slice(),
    }
}
