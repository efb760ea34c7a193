ghost use Rattle.std.specs.Prelude.{ℕ, List, Option, Bool, ◌≡◌, ◌≤◌, ◌<◌, length, IfOk};
ghost use Rattle.std.specs.Io.{WritesAtMost};
ghost use Rattle.std.specs.Io.KnownBytes.{Keeps, WriteAppends};
ghost use Rattle.px_edge.specs.Causes.{HasCause};
ghost use Rattle.px_edge.specs.Links.{raised};

use crate::Failed;

/// Where the bytes of a connection go. What comes in on a connection is a [`crate::Source`].
pub trait OutLink {
    /// The bytes that were written, where they are known.
    ghost written: { Self → Option (List ℕ) };

    /// How many writes failed.
    ghost faults: { Self → ℕ };

    /// Whether the link was shut, where that is known.
    ghost was_shut: { Self → Option Bool };

    /// Whether the link was aborted, where that is known.
    ghost was_aborted: { Self → Option Bool };

    /// Writes the first bytes of a piece, at least one where there is one.
    fn write(&mut self, piece: &[u8]) -> Result<usize, Failed>
        ensures bound { WritesAtMost result piece.now }
        ensures some { IfOk result (λ n. 0 < length piece.now → 0 < n) }
        ensures bytes { WriteAppends (written self.old) (written self.new) result piece.now }
        ensures cause { HasCause (faults self.old) (faults self.new) result }
        ensures shut { was_shut self.new ≡ was_shut self.old }
        ensures aborted { was_aborted self.new ≡ was_aborted self.old };

    /// Says that nothing more is written: the peer reads the end behind all bytes so far.
    fn shut(&mut self)
        ensures bytes { Keeps (written self.old) (written self.new) }
        ensures later { faults self.old ≤ faults self.new }
        ensures shut { was_shut self.new ≡ raised (was_shut self.old) }
        ensures aborted { was_aborted self.new ≡ was_aborted self.old };

    /// Breaks the connection off: the peer may lose bytes that it hasn't read.
    fn abort(&mut self)
        ensures bytes { Keeps (written self.old) (written self.new) }
        ensures later { faults self.old ≤ faults self.new }
        ensures shut { was_shut self.new ≡ was_shut self.old }
        ensures aborted { was_aborted self.new ≡ raised (was_aborted self.old) };
}
