//! Texts by their parts.
ghost use Rattle.std.specs.Prelude.{◌≡◌, ◌++◌, OnOk};
ghost use Rattle.er_print.specs.Inner.Joined.{joined_text};
ghost use Rattle.er_print.specs.Pieces.{HasPieceName, HavePieceNames, before_of, piece_text, pieces_text, value_text};

use crate::Put;
use crate::naming::{put_address, put_event, put_state, verb};
use crate::styles::{Style, put_label_in, put_lock_in, put_locks_in, put_name, put_site_in};
use er_event::{Kind, LockId, ThreadId, Word, WordState};
use er_lines::put_number;
use er_trace::Names;

/// A part of a text: a value, with these bytes before it.
#[derive(Clone, Copy)]
pub enum Piece<'a> {
    /// These bytes alone.
    Text(&'a [u8]),
    /// A number, in decimal.
    Number(&'a [u8], u64),
    /// The address of the word's first byte.
    Address(&'a [u8], Word),
    /// The verb of an access.
    Verb(&'a [u8], Kind),
    /// This name.
    Name(&'a [u8], &'a [u8]),
    /// A thread by its name.
    Thread(&'a [u8], ThreadId),
    /// A lock by its name, or by its level.
    Lock(&'a [u8], LockId),
    /// A site by its name.
    Site(&'a [u8], er_event::Site),
    /// A site by its name. Of the missing one nothing is put, not even these bytes.
    NamedSite(&'a [u8], er_event::Site),
    /// Locks by their names.
    Locks(&'a [u8], &'a [LockId]),
    /// What an access has to do with a race.
    Label(&'a [u8], er_report::Label),
    /// What a thread asked for.
    Event(&'a [u8], &'a er_event::Event),
    /// The state of a word.
    State(&'a [u8], &'a WordState),
}

/// Puts the parts of a text, one behind another. The two clauses say the same: by the second the prover sees the text of a list of parts at
/// once.
pub fn put_all(out: &mut Vec<u8>, style: Style, names: &Names, pieces: &[Piece<'_>]) -> Put
    requires { HavePieceNames names.now pieces.now }
    ensures text { OnOk result (out.new.items ≡ out.old.items ++ pieces_text style names.now pieces.now) }
    ensures joined { OnOk result (out.new.items ≡ out.old.items ++ joined_text style names.now pieces.now) }
{
    for piece in pieces {
        put_piece(out, style, names, piece)?;
    }
    Ok(())
}

/// Puts these parts of a text, as [`put_all`] does.
#[macro_export]
macro_rules! put {
    ($out:expr, $style:expr, $names:expr; $($piece:expr),+ $(,)?) => {{
        let pieces = [$($piece),+];
        $crate::put_all($out, $style, $names, &pieces)
    }};
}

fn put_piece(out: &mut Vec<u8>, style: Style, names: &Names, piece: &Piece<'_>) -> Put
    requires { HasPieceName names.now piece.now }
    ensures { OnOk result (out.new.items ≡ out.old.items ++ piece_text style names.now piece.now) }
{
    // A copy of no bytes would cost as much as one of some.
    let before = before_of(piece);
    if !before.is_empty() {
        out.extend_from_slice(before)?;
    }
    put_value(out, style, names, piece)
}

fn before_of<'a>(piece: &Piece<'a>) -> &'a [u8]
    ensures { result.now ≡ before_of piece.now }
{
    match piece {
        Piece::Text(_) | Piece::NamedSite(_, _) => b"".as_slice(),
        Piece::Number(before, _)
        | Piece::Address(before, _)
        | Piece::Verb(before, _)
        | Piece::Name(before, _)
        | Piece::Thread(before, _)
        | Piece::Lock(before, _)
        | Piece::Site(before, _)
        | Piece::Locks(before, _)
        | Piece::Label(before, _)
        | Piece::Event(before, _)
        | Piece::State(before, _) => before,
    }
}

#[tactic(auto, unfolding(crate::specs::Styles::named_site))]
fn put_value(out: &mut Vec<u8>, style: Style, names: &Names, piece: &Piece<'_>) -> Put
    requires { HasPieceName names.now piece.now }
    ensures { OnOk result (out.new.items ≡ out.old.items ++ value_text style names.now piece.now) }
{
    match piece {
        Piece::Text(text) => out.extend_from_slice(text),
        Piece::Number(_, n) => put_number(out, *n),
        Piece::Address(_, word) => put_address(out, *word),
        Piece::Verb(_, kind) => out.extend_from_slice(verb(*kind)),
        Piece::Name(_, name) => put_name(out, style, name, 72),
        Piece::Thread(_, thread) => {
            put_name(out, style, names.thread_name(*thread).as_bytes(), 24)
        }
        Piece::Lock(_, lock) => put_lock_in(out, style, names, *lock),
        Piece::Site(_, site) => put_site_in(out, style, names, *site),
        Piece::NamedSite(_, site) if site.number() == 0 => Ok(()),
        Piece::NamedSite(before, site) => {
            out.extend_from_slice(before)?;
            put_site_in(out, style, names, *site)
        }
        Piece::Locks(_, locks) => put_locks_in(out, style, names, locks),
        Piece::Label(_, label) => put_label_in(out, style, names, *label),
        Piece::Event(_, event) => put_event(out, names, **event),
        Piece::State(_, state) => put_state(out, names, state),
    }
}
