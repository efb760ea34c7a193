//! How a command ends.

use ext_config::ConfigFault;

/// How a command ended.
#[derive(Drop)]
pub enum Status {
    /// The input was read to its end, and all was written.
    Done,
    /// The words are no command.
    Usage,
    /// The line of this number, from 1, is the first that is no line of a trace, may not stand there, or is missing.
    TraceFault(u64),
    /// The configuration is refused.
    ConfigFault(ConfigFault),
    /// A read failed.
    ReadFault,
    /// A write failed.
    WriteFault,
    /// Memory ran out.
    Memory,
    /// The trace is one of bytes, which isn't played yet.
    NotBuilt,
}
