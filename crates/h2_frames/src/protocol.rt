//! Sizes, settings and the preface of RFC 9113.

/// What a client sends first: section 3.4.
pub const PREFACE: [u8; 24] = *b"PRI * HTTP/2.0\r\n\r\nSM\r\n\r\n";

/// How many bytes stand before a payload: section 4.1.
pub const HEAD_LEN: usize = 9;

/// The longest payload: the least SETTINGS_MAX_FRAME_SIZE, and that of a connection until a setting changes it: section
/// 6.5.2.
pub const LONGEST_PAYLOAD: u32 = 16_384;

/// The greatest SETTINGS_MAX_FRAME_SIZE.
pub const MOST_FRAME_SIZE: u32 = 16_777_215;

/// The greatest number of a stream: section 5.1.1.
pub const LAST_STREAM: u32 = (1 << 31) - 1;

/// The widest sending window: section 6.9.1.
pub const WIDEST_WINDOW: i64 = (1 << 31) - 1;

/// How wide a window is at first: section 6.9.2.
pub const FIRST_WINDOW: u32 = 65_535;

/// The identifiers of settings: section 6.5.2.
pub const HEADER_TABLE_SIZE: u16 = 1;

pub const ENABLE_PUSH: u16 = 2;

pub const MAX_CONCURRENT_STREAMS: u16 = 3;

pub const INITIAL_WINDOW_SIZE: u16 = 4;

pub const MAX_FRAME_SIZE: u16 = 5;
