//! A box as C can carry it.
ghost use Rattle.std.specs.Prelude.{◌≡◌, Option, Some, None, is_some, IsTrue};
ghost use Rattle.eraser_c.specs.Owned.{Value, kept_coded, owns_kept};

use crate::kept::Kept;
use crate::raw::Raw;
use std::alloc::Global;
use std::marker::Model;

/// The pointer of a box, or nothing. The pointer's type doesn't say what it points to, since C has no such type.
#[repr(C)]
#[derive(Drop)]
pub struct KeptBox {
    at: *mut u8,
    alloc: Global,
    pub ghost kept: { Option Value } by { kept_coded },
}

impl Model for KeptBox {
    ghost also_owns = { λ b. owns_kept b.alloc b.at b.kept };
}

// It owns what it points to, and a handle may be used by another thread than the one that made it.
unsafe impl Send for KeptBox {}

impl KeptBox {
    /// Nothing.
    pub(crate) fn none(alloc: Global) -> KeptBox
        ensures { result.kept ≡ None }
    {
        KeptBox {
            at: std::ptr::null_mut(),
            alloc,
        }
    }

    /// What the box has.
    pub(crate) fn of(raw: Raw<Kept, Global>) -> KeptBox
        ensures { result.kept ≡ Some raw.value }
    {
        let Raw { at, alloc } = raw;
        KeptBox {
            at: at as *mut u8,
            alloc,
        }
    }

    /// What is kept.
    pub(crate) fn into_raw(self) -> Raw<Kept, Global>
        requires { IsTrue (is_some self.kept) }
        ensures { Some result.value ≡ self.kept }
    {
        let KeptBox { at, alloc } = self;
        Raw {
            at: at as *mut Kept,
            alloc,
        }
    }
}
