//! Fields and names in their order.

use pb_wire::{Blob, Duplicate, Items};
use std::alloc::AllocError;

/// A header field, or a field of trailers: `HeaderValue` of `envoy.config.core.v3`.
#[derive(Debug, Drop)]
pub struct Field {
    pub name: Blob,
    pub value: Blob,
}

impl Duplicate for Field {
    fn copy(&self) -> Result<Field, AllocError> {
        let name = self.name.copy()?;
        let value = self.value.copy()?;
        Ok(Field { name, value })
    }
}

/// A field that a mutation sets, and how: `HeaderValueOption` of `envoy.config.core.v3`.
#[derive(Drop)]
pub struct SetField {
    pub name: Blob,
    pub value: Blob,
    /// The number of `append_action`: 0 appends, 1 appends where the name is absent, 2 overwrites or appends, 3
    /// overwrites where the name is present.
    pub action: u8,
}

impl Duplicate for SetField {
    fn copy(&self) -> Result<SetField, AllocError> {
        let name = self.name.copy()?;
        let value = self.value.copy()?;
        let action = self.action;
        Ok(SetField {
            name,
            value,
            action,
        })
    }
}

/// The fields of a head or of trailers.
pub type FieldList = Items<Field>;

/// The fields that a mutation sets.
pub type SetList = Items<SetField>;

/// Names of fields.
pub type NameList = Items<Blob>;
