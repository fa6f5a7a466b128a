//! What a sink is. It knows nothing of what the bytes say.
ghost use Rattle.std.specs.Prelude.{◌≡◌, ℕ, ◌<◌, ◌≤◌, List, Option, length, IfOk, OnOk};
ghost use Rattle.std.specs.Io.KnownBytes.{Keeps, WriteAppends};
ghost use Rattle.tide_io.specs.Faults.{HasCause};

use crate::Failed;

/// Where bytes go to.
pub trait Sink {
    /// The bytes that it holds, where the sink tells them.
    ghost held: { Self → Option (List ℕ) };

    /// How many bytes it took and has not handed on to where they go.
    ghost waiting: { Self → ℕ };

    /// How often it has failed.
    ghost faults: { Self → ℕ };

    /// Takes some first bytes of `piece`, at least one, and answers their number. Nothing is taken where it
    /// failed.
    fn write(&mut self, piece: &[u8]) -> Result<usize, Failed>
        requires { 0 < length piece.now }
        ensures taken { IfOk result (λ count. (0 < count) × (count ≤ length piece.now)) }
        ensures bytes { WriteAppends (held self.old) (held self.new) result piece.now }
        ensures cause { HasCause (faults self.old) (faults self.new) result };

    /// Hands on what it took. Where it fails, some of that may wait still.
    fn flush(&mut self) -> Result<(), Failed>
        ensures same { Keeps (held self.old) (held self.new) }
        ensures all { OnOk result (waiting self.new ≡ 0) }
        ensures cause { HasCause (faults self.old) (faults self.new) result };
}
