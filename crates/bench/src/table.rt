//! How long a piece of work takes, and a row of a table.

use anyhow::Result;
use std::time::Instant;

/// Nanoseconds since then, at least 1.
pub fn nanos_since(rt: &HostRuntime, start: Instant) -> Result<u64> {
    let nanos = start.elapsed(rt)?.as_nanos();
    Ok(u64::try_from(nanos).unwrap_or(u64::MAX).max(1))
}

/// The quotient in hundredths, of a time that is cut off after some days.
pub fn hundredths(nanos: u64, parts: u64) -> u64 {
    nanos.min(1 << 50) * 100 / parts.max(1)
}

/// Prints a row: what was measured, a size that tells it from other rows, all nanoseconds, and those of each part.
pub fn print_row(rt: &HostRuntime, what: &str, size: u64, nanos: u64, parts: u64) -> Result<()> {
    let each = hundredths(nanos, parts);
    let (whole, rest) = (each / 100, each % 100);
    println!(rt; "{what:<16} {size:>10} {nanos:>14} ns {whole:>8}.{rest:02} ns each")?;
    Ok(())
}
