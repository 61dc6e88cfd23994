//! The lines of races get their reasons.
ghost use Rattle.std.specs.Prelude.{◌≡◌, drop, map};
ghost use Rattle.std.specs.Vec.Iter.{into_iter_items};
ghost use Rattle.er_report.specs.Inner.Explained.{line_told, next_told, told_left, with_told};
ghost use Rattle.er_report.specs.Lines.{line_view, locks_in, reasons_in};

use crate::{Details, Line};
use std::vec::IntoIter;

/// Gives each line of a race its reasons, one after another.
pub(crate) fn give_reasons(told: Vec<Box<Details>>, lines: &mut [Line])
    ensures { map line_view lines.new ≡ with_told (map (λ reasons. reasons.value.explained.items) told.items) (map line_view lines.old) }
{
    let mut to_come = told.into_iter();
    for i in 0..lines.len() {
        explain_line(&mut to_come, &mut lines[i]);
    }
}

// Gives the line of a race the next reasons.
fn explain_line(to_come: &mut IntoIter<Box<Details>>, line: &mut Line)
    ensures line { line_view line.new ≡ line_told (map (λ reasons. reasons.value.explained.items) (into_iter_items to_come.old)) (line_view line.old) }
    ensures left { map (λ reasons. reasons.value.explained.items) (into_iter_items to_come.new) ≡ told_left (map (λ reasons. reasons.value.explained.items) (into_iter_items to_come.old)) (line_view line.old) }
{
    match line {
        Line::Race { details, .. } => take_next(to_come, details),
        Line::Reused { details, .. } => take_next(to_come, details),
        _ => {}
    }
}

// Takes the next reasons, where some are left, and keeps the locks.
fn take_next(to_come: &mut IntoIter<Box<Details>>, details: &mut Option<Box<Details>>)
    ensures given { reasons_in details.new ≡ next_told (map (λ reasons. reasons.value.explained.items) (into_iter_items to_come.old)) (reasons_in details.old) }
    ensures locks { locks_in details.new ≡ locks_in details.old }
    ensures left { map (λ reasons. reasons.value.explained.items) (into_iter_items to_come.new) ≡ drop 1 (map (λ reasons. reasons.value.explained.items) (into_iter_items to_come.old)) }
{
    if let Some(mut reasons) = to_come.next() {
        reasons.held = match details {
            Some(kept) => kept.held.take(),
            None => None,
        };
        *details = Some(reasons);
    }
}
