//! The packed word.
ghost use Rattle.std.specs.Prelude.{◌≡◌, ◌↔◌, ◌<◌, ◌^◌, IsTrue};
ghost use Rattle.er_owner.specs.Packed.{bits_of, IsSmall, same_bits, same_bits_per, same_bits_equiv};
ghost use Rattle.er_owner.specs.declared.states.NumberedState.TheVariants.{Virgin, Exclusive, Shared, SharedModified};

use crate::NumberedState;
use er_event::ThreadId;
use std::marker::Model;

/// A shadowed word's state in 32 bits: the two highest are the state, and the others hold the thread or the set's number. Contracts see
/// the state.
#[derive(Clone, Copy, Debug)]
pub struct Shadow {
    bits: u32,
}

impl Model for Shadow {
    ghost use Rattle.er_owner.specs.declared.states.NumberedState.{NumberedState};
    ghost use Rattle.er_owner.specs.Packed.{bits_of, state_of, IsPacked};

    ghost Value = { NumberedState };

    ghost view = { λ s. state_of s.bits };

    ghost invariant = { λ s. IsPacked s.bits };

    ghost inverse = { λ state. record { bits = bits_of state } };

    ghost inverse_ok = { λ s packed i. record { bits = packed i } };
}

impl Shadow {
    // The least words of three states. Virgin is 0 alone.
    const EXCLUSIVE: u32 = 1 << 30;

    const SHARED: u32 = 2 << 30;

    const SHARED_MODIFIED: u32 = 3 << 30;

    /// The word that no access has changed yet, 0.
    #[inline]
    pub fn virgin() -> Shadow
        ensures { result ≡ Virgin }
    {
        Shadow { bits: 0 }
    }

    /// The word that one thread alone has accessed.
    #[inline]
    pub fn exclusive(thread: ThreadId) -> Shadow
        ensures { result ≡ Exclusive thread }
    {
        Shadow {
            bits: Shadow::EXCLUSIVE + thread.number(),
        }
    }

    /// The word that several threads have read, with the number of its set of locks.
    #[inline]
    pub fn shared(set: u32) -> Shadow
        requires { set < 2 ^ 30 }
        ensures { result ≡ Shared set }
    {
        Shadow {
            bits: Shadow::SHARED + set,
        }
    }

    /// The word that several threads have accessed and one has written, with the number of its set of locks.
    #[inline]
    pub fn shared_modified(set: u32) -> Shadow
        requires { set < 2 ^ 30 }
        ensures { result ≡ SharedModified set }
    {
        Shadow {
            bits: Shadow::SHARED_MODIFIED + set,
        }
    }

    /// The 32 bits: 0 for virgin, else the state, 1 to 3, above thirty bits of the thread or the set.
    #[inline]
    pub fn bits(self) -> u32
        ensures { result ≡ bits_of self }
    {
        let Shadow { bits } = self;
        bits
    }

    /// The state that the bits tell.
    #[inline]
    pub fn state(self) -> NumberedState
        ensures state { result ≡ self }
        ensures small { IsSmall self }
    {
        if self.bits >= Shadow::SHARED_MODIFIED {
            NumberedState::SharedModified(self.bits - Shadow::SHARED_MODIFIED)
        } else if self.bits >= Shadow::SHARED {
            NumberedState::Shared(self.bits - Shadow::SHARED)
        } else if self.bits >= Shadow::EXCLUSIVE {
            NumberedState::Exclusive(ThreadId::new(self.bits - Shadow::EXCLUSIVE))
        } else {
            NumberedState::Virgin
        }
    }
}

impl PartialEq for Shadow {
    ghost eq = { same_bits };

    ghost laws = { same_bits_per };

    #[inline]
    fn eq(&self, other: &Shadow) -> bool
        ensures value { result ≡ same_bits self.now other.now }
        ensures same { IsTrue result ↔ (self.now ≡ other.now) }
    {
        self.bits == other.bits
    }
}

impl Eq for Shadow {
    ghost laws = { same_bits_equiv };
}
