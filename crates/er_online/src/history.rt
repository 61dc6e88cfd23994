//! The list of a shard's calls, which exists in contracts only.
ghost use Rattle.std.specs.Prelude.{◌≡◌, ℕ, List, [], ◌∷◌, ◌++◌};
ghost use Rattle.std.specs.Borrow.{ftrue};
ghost use Rattle.er_online.specs.declared.calls.ShardCall.{ShardCall};
ghost use Rattle.er_online.specs.Taken.{calls_coded};

use crate::ShardCall;
use er_event::Lockset;
use std::marker::Model;

/// The calls that a shard took, oldest first, each with the locks that covered it. It takes no memory, and its methods do nothing at run time.
#[derive(Drop)]
pub struct History {
    pub ghost calls: { List (ShardCall × List ℕ) } by { calls_coded },
}

impl Model for History {
    ghost also_owns = { λ _. ftrue };
}

// It owns nothing.
unsafe impl Send for History {}

impl History {
    /// No call.
    pub fn new() -> History
        ensures { result.calls ≡ [] }
    {
        History {}
    }

    /// One call more.
    pub fn and(&self, call: &ShardCall, cover: &Lockset) -> History
        ensures { result.calls ≡ self.now.calls ++ (call.now, cover.now) ∷ [] }
    {
        History {}
    }
}
