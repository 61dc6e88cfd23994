//! The handle that C has.
ghost use Rattle.std.specs.Prelude.{◌≡◌, Some, None, IfSome, IfNone};
ghost use Rattle.eraser_c.specs.Kinds.{handle_number};

use crate::kept::Kept;
use crate::kept_box::KeptBox;
use crate::raw::Raw;
use std::alloc::Global;

/// 16 bytes of C's. Zeroed it is empty. `kind` is 0 if it is empty, and else says what it leads to, in the order of [`Kept`].
#[repr(C)]
pub struct Handle {
    kind: u64,
    pub kept_box: KeptBox,
    ghost tied: { kind ≡ handle_number kept_box.kept },
}

impl Handle {
    /// An empty handle.
    pub(crate) fn empty(alloc: Global) -> Handle
        ensures { result.kept_box.kept ≡ None }
    {
        Handle {
            kind: 0,
            kept_box: KeptBox::none(alloc),
        }
    }

    /// A handle that leads to this.
    pub(crate) fn of(kept: Box<Kept>) -> Handle
        ensures { result.kept_box.kept ≡ Some kept.value }
    {
        Handle {
            kind: match &*kept {
                Kept::Shard(_) => 1,
                Kept::Thread(_) => 2,
                Kept::Journal(_) => 3,
                Kept::Seat(_) => 4,
            },
            kept_box: KeptBox::of(Raw::of(kept)),
        }
    }

    /// What it leads to, unless it is empty.
    pub(crate) fn into_box(self) -> Option<Box<Kept>>
        ensures some { IfSome result (λ kept. self.kept_box.kept ≡ Some kept.value) }
        ensures none { IfNone result (self.kept_box.kept ≡ None) }
    {
        let Handle { kind, kept_box } = self;
        if kind == 0 {
            None
        } else {
            Some(kept_box.into_raw().into_box())
        }
    }
}

impl Drop for Handle {
    fn drop(self) {
        drop(self.into_box());
    }
}
