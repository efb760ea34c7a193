//! Why bytes are no list of records.

use thiserror::Error;

/// What is wrong with a record.
#[derive(Clone, Copy)]
pub enum Cause {
    /// The input ends within the record.
    Truncated,
    /// A varint has an eleventh byte, or a tenth above 1.
    LongVarint,
    /// The number is 0 or above 2^29 - 1, or the type is 6 or 7.
    BadTag,
    /// The type is 3 or 4.
    Group,
}

/// What is wrong with a record, and the place of the record's first byte.
#[derive(Clone, Copy, Debug, Error)]
pub enum WireFault {
    /// The input ends within the record.
    #[error("the record at {0} is cut off")]
    Truncated(u32),
    /// A varint has an eleventh byte, or a tenth above 1.
    #[error("the record at {0} has a varint of more than 64 bits")]
    LongVarint(u32),
    /// The number is 0 or above 2^29 - 1, or the type is 6 or 7.
    #[error("the record at {0} has a tag of no field")]
    BadTag(u32),
    /// The type is 3 or 4.
    #[error("the record at {0} is a group")]
    Group(u32),
}

impl Cause {
    ghost use Rattle.std.specs.Prelude.{◌≡◌};
    ghost use Rattle.pb_wire.specs.Reading.{fault_at};

    /// This fault of the record at a place.
    pub fn at(self, place: u32) -> WireFault
        ensures { result ≡ fault_at place self }
    {
        match self {
            Cause::Truncated => WireFault::Truncated(place),
            Cause::LongVarint => WireFault::LongVarint(place),
            Cause::BadTag => WireFault::BadTag(place),
            Cause::Group => WireFault::Group(place),
        }
    }
}
