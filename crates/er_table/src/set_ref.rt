//! What names a set of a table. It is the token of a push, so reading it again takes no lock and cannot fail (`read`).
ghost use Rattle.std.specs.Prelude.{◌≡◌, IfOk, IfSome, IsOkUnless};
ghost use Rattle.er_table.specs.SetRef.{IsOf, set_of};

use crate::Sets;
use boxcar::Pushed;
use er_event::{Lockset, NoRoom};
use std::marker::Model;
use std::sync::Wait;

/// Names one set of a table, for as long as the table lasts.
#[derive(Drop)]
pub struct SetRef {
    pushed: Pushed<Lockset>,
}

impl Model for SetRef {
    ghost use Rattle.std.specs.Prelude.{List, ℕ};
    ghost use Rattle.std.specs.Coded.{coded_list, coded_ℕ};
    ghost use Rattle.boxcar.specs.Table.{Where, where_coded};

    ghost Value = { Where (List ℕ) };

    ghost coded = { where_coded (coded_list coded_ℕ) };

    ghost view = { λ r. r.pushed };
}

impl SetRef {
    /// Stores a copy of the set, and names it.
    pub(crate) fn push<R: Wait>(rt: &R, sets: &Sets, set: &Lockset) -> Result<SetRef, NoRoom>
        ensures named { IfOk result (λ r. IsOf sets.now r × (set_of r ≡ set.now)) }
        ensures memory { IsOkUnless result NoRoom.OutOfMemory }
    {
        match sets.push_shown(rt, set.copy()?) {
            Ok(pushed) => Ok(SetRef { pushed }),
            Err(_set) => Err(NoRoom::OutOfMemory),
        }
    }

    /// Names the set at a place, if it is this one.
    pub(crate) fn at(sets: &Sets, place: usize, set: &Lockset) -> Option<SetRef>
        ensures { IfSome result (λ r. IsOf sets.now r × (set_of r ≡ set.now)) }
    {
        let pushed = sets.witness(place)?;
        (sets.value(&pushed) == set).then_some(SetRef { pushed })
    }

    pub(crate) fn place(&self) -> usize {
        self.pushed.index()
    }

    /// The set, in the vector that it was pushed to.
    pub(crate) fn read<'t>(&self, sets: &'t Sets) -> &'t Lockset
        requires { IsOf sets.now self.now }
        ensures { result.now ≡ set_of self.now }
    {
        sets.value(&self.pushed)
    }
}
