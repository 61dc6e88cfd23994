//! Lines cut into pieces, and each piece read and numbered in a thread of its own.
ghost use Rattle.std.specs.Prelude.{◌≡◌, ◌≤◌, [], All, length, take, drop};
ghost use Rattle.std.specs.Thread.{IsSync};
ghost use Rattle.er_reading.specs.Inner.Adding.{AreNumbered, first_len};
ghost use Rattle.er_reading.specs.Pieces.{ArePiecesOf};
ghost use Rattle.er_lines.specs.Lines.{AreWhole};
ghost use Rattle.er_text.specs.Pieces.{CanBeNumbered, IsNumbered, IsPieceOf};

use er_text::{Piece, Version};
use er_trace::Names;
use memchr::memchr;
use std::thread::{Threads, join_mut};

/// How many bytes the first lines have that are no fewer than so many.
fn front_len(bytes: &[u8], least: usize) -> usize
    requires within { least ≤ length bytes.now }
    requires whole { AreWhole bytes.now }
    ensures bound { (least ≤ result) × (result ≤ length bytes.now) }
    ensures some { 1 ≤ length bytes.now → 1 ≤ result }
    ensures front { AreWhole (take result bytes.now) }
    ensures back { AreWhole (drop result bytes.now) }
{
    match memchr(b'\n', &bytes[least..]) {
        Some(at) => least + at + 1,
        None => bytes.len(),
    }
}

/// Reads whole lines behind these names into so many pieces of about the same size, each in a thread of its own if one can be started.
///
/// The caller reads none and waits. A system may give a new thread the processor of the thread that started it, and leave it waiting there while other
/// processors are idle.
pub(crate) fn read_pieces<R: Threads + Sync>(
    rt: &R,
    version: Version,
    names: &Names,
    bytes: &[u8],
    pieces: &mut [Piece],
)
    requires some { pieces.old ≡ [] → bytes.now ≡ [] }
    requires whole { AreWhole bytes.now }
    ensures pieces { ArePiecesOf version names.now bytes.now pieces.new }
    ensures first { 1 ≤ length bytes.now → 1 ≤ first_len pieces.new }
{
    let count = pieces.len();
    let Some((first, others)) = pieces.split_first_mut() else {
        return;
    };
    let (front, back) = bytes.split_at(front_len(bytes, bytes.len() / count));
    join_mut(
        rt,
        &mut ||
            ensures { IsPieceOf version names.entry.now front.entry.now first.exit.now }
        { first.read(version, names, front) },
        &mut ||
            requires { IsSync R.row × (others.now ≡ [] → back.now ≡ []) × AreWhole back.now }
            ensures { ArePiecesOf version names.entry.now back.entry.now others.exit.now }
        { read_pieces(rt, version, names, back, others) },
    );
}

/// Gives the steps of these pieces their numbers, each in a thread of its own if one can be started. The caller waits. If the names of a piece have their
/// numbers already, it counts the lines of that piece itself.
pub(crate) fn number_pieces<R: Threads + Sync>(rt: &R, pieces: &mut [Piece])
    requires { All CanBeNumbered pieces.old }
    ensures { AreNumbered pieces.old pieces.new }
{
    let Some((first, others)) = pieces.split_first_mut() else {
        return;
    };
    if first.has_its_numbers() {
        first.number();
        number_pieces(rt, others);
        return;
    }
    join_mut(
        rt,
        &mut ||
            requires { CanBeNumbered first.now }
            ensures { IsNumbered first.entry.now first.exit.now }
        { first.number() },
        &mut ||
            requires { IsSync R.row × All CanBeNumbered others.now }
            ensures { AreNumbered others.entry.now others.exit.now }
        { number_pieces(rt, others) },
    );
}
