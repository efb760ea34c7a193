//! Frames.

use pb_wire::{Blob, Duplicate, Items};
use std::alloc::AllocError;

/// One setting: RFC 9113 section 6.5.1.
#[derive(Clone, Copy)]
pub struct Setting {
    pub identifier: u16,
    pub value: u32,
}

impl Duplicate for Setting {
    fn copy(&self) -> Result<Setting, AllocError> {
        Ok(*self)
    }
}

/// Settings in the order in which they stand.
pub type SettingList = Items<Setting>;

/// A frame. The first number is the stream, where there is one.
#[derive(Drop)]
pub enum Frame {
    /// The content, whether the stream ends, and the payload's length with padding, which counts for windows.
    Data(u32, Blob, bool, u32),
    /// A part of a field block, whether the stream ends, and whether the block does.
    Headers(u32, Blob, bool, bool),
    Priority(u32),
    /// The error code.
    Reset(u32, u32),
    Settings(SettingList),
    SettingsAck,
    Push(u32),
    /// Whether it is an acknowledgement, and the opaque bytes.
    Ping(bool, [u8; 8]),
    /// The last stream and the error code.
    GoAway(u32, u32),
    /// The increment.
    Window(u32, u32),
    /// A part of a field block, and whether the block ends.
    Continuation(u32, Blob, bool),
    /// The code of a type that isn't known.
    Unknown(u8),
}
