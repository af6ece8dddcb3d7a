//! What a worker asks before it works on a block.

ghost use Rattle.std.specs.Prelude.{◌≡◌, Bool, false, IsTrue};

/// Lets blocks pass, or not. All workers of a run ask the gate, each before each of its blocks. It
/// may return anything at any time, and never waits.
pub trait Gate: Send + Sync + Drop {
    /// Whether the gate may hold back a block.
    ghost holds: { Self → Bool };

    /// Whether the gate may hold back a block. If in doubt, `true` is right.
    fn may_hold(&self) -> bool
        ensures { result ≡ holds self.now };

    /// Whether the block with this number may pass now. A worker that gets `false` asks again, up
    /// to its limit.
    fn passes(&self, number: u64) -> bool
        ensures { result ≡ false → IsTrue (holds self.now) };
}

/// The gate that lets every block pass.
#[derive(Drop)]
pub struct OpenGate;

impl Gate for OpenGate {
    ghost holds = { λ _. false };

    fn may_hold(&self) -> bool {
        false
    }

    fn passes(&self, _number: u64) -> bool
        ensures { IsTrue result }
    {
        true
    }
}
