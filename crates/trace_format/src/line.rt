//! A line of a trace.

use pb_wire::Blob;

/// A line of a trace. The first number is that of an exchange, and that of `Tick` is the time in milliseconds.
#[derive(Debug, Drop)]
pub enum TraceLine {
    /// Whether the processor's side is told in bytes, and not in messages.
    First(bool),
    Config(Blob),
    Open,
    Client(u32, Blob),
    Up(u32, Blob),
    ClientEnd(u32),
    UpEnd(u32),
    ClientLost(u32),
    UpLost(u32),
    UpNoDial(u32),
    /// Without bytes for `-`.
    Answer(u32, Blob),
    /// Whether the processor's stream was closed cleanly.
    Close(u32, bool),
    Ext(Blob),
    ExtEnd,
    ExtLost,
    Tick(u64),
    HoldClient(u32),
    HoldUp(u32),
    HoldExt,
    FreeClient(u32),
    FreeUp(u32),
    FreeExt,
    Stop,
}
