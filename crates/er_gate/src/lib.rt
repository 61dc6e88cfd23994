//! Gates that workers pass.
//!
//! Begin with [`Gate`]: a worker calls `enter` once before each piece of its work. An [`OpenGate`] lets every piece pass, and a
//! [`PairGate`] shows whether two pieces were at work at once.
#![tactic(auto)]

pub use gate::{Gate, OpenGate, PairGate};

mod gate;
