//! A gate that refuses by a script.

use fq_work::Gate;
use std::sync::atomic::{AtomicU64, Ordering};

/// A gate that refuses the first times that it is asked, and one block each time. It counts how
/// often it is asked.
#[derive(Drop)]
pub struct ScriptGate {
    refusals: u64,
    refused: Option<u64>,
    asked: AtomicU64,
}

impl ScriptGate {
    /// A gate that refuses the first `refusals` times, and the block `refused` each time.
    pub fn new(refusals: u64, refused: Option<u64>) -> ScriptGate {
        ScriptGate {
            refusals,
            refused,
            asked: AtomicU64::new(0),
        }
    }

    /// How often it was asked.
    pub fn asked(&self) -> u64 {
        self.asked.load(Ordering::SeqCst)
    }
}

impl Gate for ScriptGate {
    ghost use Rattle.std.specs.Prelude.{true};

    ghost holds = { λ _. true };

    fn may_hold(&self) -> bool {
        true
    }

    fn passes(&self, number: u64) -> bool {
        self.refusals <= self.asked.fetch_add(1, Ordering::SeqCst) && self.refused != Some(number)
    }
}
