//! What a worker passes before a piece of its work.
ghost use Rattle.std.specs.Prelude.{◌≢◌};

use std::sync::atomic::{AtomicBool, Ordering};

/// Passed by a worker before each piece of its work. Tests use it to see that two workers are at work at once.
pub trait Gate: Sync {
    /// Called once before the piece.
    fn enter(&self, piece: u32);
}

/// Lets every piece pass at once.
#[derive(Drop)]
pub struct OpenGate;

impl Gate for OpenGate {
    fn enter(&self, _piece: u32) {}
}

// How often a piece looks for the other at a gate of `PairGate::new`.
const LOOKS: u64 = 100_000_000;

/// At each of two pieces, shows that it is there and looks for the other a bounded number of times. Other pieces pass at once.
#[derive(Drop)]
pub struct PairGate {
    first: Side,
    second: Side,
    looks: u64,
}

// One of the two pieces: whether it is there, and whether it saw the other.
#[derive(Drop)]
struct Side {
    piece: u32,
    here: AtomicBool,
    saw: AtomicBool,
}

impl PairGate {
    /// A gate for two pieces, at which neither is yet. Each looks 100,000,000 times, which takes tenths of a second.
    pub fn new(first: u32, second: u32) -> PairGate
        requires { first ≢ second }
    {
        PairGate::with_looks(first, second, LOOKS)
    }

    /// The same, at which each piece looks this often.
    pub fn with_looks(first: u32, second: u32, looks: u64) -> PairGate
        requires { first ≢ second }
    {
        PairGate {
            first: Side::new(first),
            second: Side::new(second),
            looks,
        }
    }

    /// Whether each of the two saw the other.
    pub fn met(&self) -> bool {
        let first = self.first.saw.load(Ordering::SeqCst);
        let second = self.second.saw.load(Ordering::SeqCst);
        first && second
    }
}

impl Gate for PairGate {
    fn enter(&self, piece: u32) {
        if piece == self.first.piece {
            self.first.look_for(&self.second, self.looks);
        } else if piece == self.second.piece {
            self.second.look_for(&self.first, self.looks);
        }
    }
}

impl Side {
    fn new(piece: u32) -> Side {
        Side {
            piece,
            here: AtomicBool::new(false),
            saw: AtomicBool::new(false),
        }
    }

    // Shows that it is there, and looks for the other until it sees it or has looked this often.
    fn look_for(&self, other: &Side, looks: u64) {
        self.here.store(true, Ordering::SeqCst);
        for _ in 0..looks {
            if other.here.load(Ordering::SeqCst) {
                self.saw.store(true, Ordering::SeqCst);
                return;
            }
        }
    }
}
