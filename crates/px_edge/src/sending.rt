//! Whole pieces out.

ghost use Rattle.std.specs.Prelude.{◌≡◌, ◌≤◌, OnOk, OnErr};
ghost use Rattle.std.specs.Io.KnownBytes.{Appends};
ghost use Rattle.px_edge.specs.Causes.{HasCause};
ghost use Rattle.px_edge.specs.Links.{WritesFront};

use crate::{Failed, OutLink};

/// Writes all of a piece. Where a write fails, the first bytes of the piece were written.
pub fn send_all<O: OutLink>(link: &mut O, piece: &[u8]) -> Result<(), Failed>
    ensures written { OnOk result (Appends (O.written link.old) (O.written link.new) piece.now) }
    ensures some { OnErr result (WritesFront (O.written link.old) (O.written link.new) piece.now) }
    ensures cause { HasCause (O.faults link.old) (O.faults link.new) result }
    ensures shut { O.was_shut link.new ≡ O.was_shut link.old }
    ensures aborted { O.was_aborted link.new ≡ O.was_aborted link.old }
{
    let mut done = 0;
    while done < piece.len() {
        let (_, rest) = piece.split_at(done);
        match link.write(rest) {
            Ok(count) => done += count,
            Err(failed) => return Err(failed),
        }
    }
    Ok(())
}
