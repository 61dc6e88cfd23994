//! Names of one sort and their numbers.
ghost use Rattle.std.specs.Prelude.{◌≡◌, ◌<◌, ◌≤◌, [], length, Some, slice_get, IsTrue, IsOk, IsErr, IfOk, IfSome, IfNone, OnOk, OnErr, true, false};
ghost use Rattle.er_trace.specs.Inner.Recent.{Knows};
ghost use Rattle.er_trace.specs.Names.{is_known, number_of, with_name, most_names, is_allowed_name};

use crate::NameKeys;
use crate::recent::{is_plain_name, is_shown_name};
use er_keys::KeyedHasher;
use indexmap::IndexSet;
use std::alloc::{AllocError, Global};
use std::marker::Model;

/// Names of one sort, in the order of their first appearance.
#[derive(Drop)]
pub(crate) struct NameList {
    names: IndexSet<String, KeyedHasher>,
    are_plain: bool,
    are_shown: bool,
}

impl Model for NameList {
    ghost use Rattle.std.specs.Prelude.{ℕ, ◌≤◌, List, length, map};
    ghost use Rattle.std.specs.String.{string_bytes};
    ghost use Rattle.er_trace.specs.Names.{most_names, is_plain_name, is_shown_name};
    ghost use Rattle.er_trace.specs.Inner.Recent.{AreAll};

    ghost Value = { List (List ℕ) };

    ghost view = { λ n. map string_bytes n.names.keys };

    ghost invariant = { λ n. (length (map string_bytes n.names.keys) ≤ most_names) × AreAll is_plain_name n.are_plain (map string_bytes n.names.keys) × AreAll is_shown_name n.are_shown (map string_bytes n.names.keys) };
}

impl NameList {
    /// How many names can have numbers.
    const MOST: usize = 1 << 30;

    pub(crate) fn new(alloc: Global, keys: NameKeys) -> Self
        ensures { result ≡ [] }
    {
        NameList {
            names: IndexSet::with_hasher(alloc, KeyedHasher::new(keys)),
            are_plain: true,
            are_shown: true,
        }
    }

    /// The place of a name, which is a new one if the name is new.
    pub(crate) fn number(&mut self, name: &str) -> Result<usize, AllocError>
        ensures number { IfOk result (λ n. n ≡ number_of self.old name.now) }
        ensures ok { OnOk result (self.new ≡ with_name self.old name.now) }
        ensures err { OnErr result (self.new ≡ self.old) }
        ensures known { IsTrue (is_known self.old name.now) → IsOk result }
        ensures within { IfOk result (λ n. n < most_names) }
        ensures full { most_names ≤ length self.old → is_known self.old name.now ≡ false → IsErr result }
    {
        if let Some(number) = self.names.get_index_of(name) {
            return Ok(number);
        }
        if self.names.len() >= NameList::MOST {
            return Err(AllocError);
        }
        self.are_plain = self.are_plain && is_plain_name(name.as_bytes());
        self.are_shown = self.are_shown && is_shown_name(name.as_bytes());
        let name = String::from_str(*self.names.allocator(), name)?;
        let (number, _) = self.names.insert_full(name)?;
        Ok(number)
    }

    /// Whether the name of this number is this one.
    pub(crate) fn is_at(&self, number: usize, name: &[u8]) -> bool
        ensures { IsTrue result → Knows self.now name.now number }
    {
        match self.names.as_slice().get(number) {
            Some(found) => found.as_bytes() == name,
            None => false,
        }
    }

    /// The same, if all names are plain, or if they may be others, of bytes from `!` to `~`.
    pub(crate) fn is_allowed_at(&self, number: usize, name: &[u8], may_be_other: bool) -> bool
        ensures { IsTrue result → Knows self.now name.now number × (is_allowed_name may_be_other name.now ≡ true) }
    {
        let are_allowed = if may_be_other {
            self.are_shown
        } else {
            self.are_plain
        };
        are_allowed && self.is_at(number, name)
    }

    pub(crate) fn allocator(&self) -> &Global {
        self.names.allocator()
    }

    pub(crate) fn len(&self) -> usize
        ensures { result ≡ length self.now }
    {
        self.names.len()
    }

    pub(crate) fn name(&self, number: usize) -> &str
        requires { number < length self.now }
        ensures { slice_get self.now number ≡ Some result.now }
    {
        self.names[number].as_str()
    }

    /// The place of a name that has appeared.
    pub(crate) fn find(&self, name: &str) -> Option<usize>
        ensures some { IfSome result (λ n. (n ≡ number_of self.now name.now) × (is_known self.now name.now ≡ true)) }
        ensures none { IfNone result (is_known self.now name.now ≡ false) }
        ensures within { IfSome result (λ n. n < most_names) }
    {
        self.names.get_index_of(name)
    }
}
