//! Which bytes of their words the accesses on the lines of a batch touch.
ghost use Rattle.std.specs.Prelude.{◌≡◌, ◌≤◌, ℕ, drop, slice_get};
ghost use Rattle.er_batch.specs.Touching.{of_line, touch_on};
ghost use Rattle.er_unordered.specs.Reports.{bytes_by};

use er_lines::Touch;
use er_order::Bytes;

/// The place of the first touch of the line or of a later one. The search begins at that of the line before, or again if that line is a later one.
pub(crate) fn place_of(touches: &[Touch], before: usize, last: u64, line: u64) -> usize
    requires { (later : ℕ) → last ≤ later → touch_on (drop before touches.now) later ≡ touch_on touches.now later }
    ensures later { (later : ℕ) → line ≤ later → touch_on (drop result touches.now) later ≡ touch_on touches.now later }
    ensures found { touch_on touches.now line ≡ of_line line (slice_get touches.now result) }
{
    let mut place = if line < last { 0 } else { before };
    while place < touches.len() && touches[place].line < line {
        place += 1;
    }
    place
}

/// The bytes of the touch at this place, if it is of the line. Without one they are all.
pub(crate) fn bytes_at(touches: &[Touch], place: usize, line: u64) -> Bytes
    ensures { result ≡ bytes_by (of_line line (slice_get touches.now place)) }
{
    match touches.get(place) {
        Some(touch) if touch.line == line => Bytes {
            first: touch.first,
            last: touch.last,
        },
        _ => Bytes { first: 0, last: 3 },
    }
}
