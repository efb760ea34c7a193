//! Header blocks.

use crate::prims::push_fault;
use crate::text::{fields_of, push_fields, push_hex, push_number};
use anyhow::{Result, bail};
use hpack_core::{Decoder, Encoder, HpackFault};
use pb_wire::Blob;
use std::alloc::Global;

/// More bytes than an encoder takes of a name or a value.
const LONG: u64 = 1 << 32;

/// The decoder and the encoder of a script.
#[derive(Drop)]
pub struct Coders {
    decoder: Decoder,
    encoder: Encoder,
}

// Appends a fault.
fn push_refusal(alloc: Global, told: &mut String, fault: HpackFault) -> Result<()> {
    match fault {
        HpackFault::Prim(fault) => push_fault(alloc, told, fault),
        HpackFault::Index(at) => push_number(alloc, told, "refused index", u64::from(at)),
        HpackFault::TableSize(at) => push_number(alloc, told, "refused table-size", u64::from(at)),
        HpackFault::ListSize => Ok(told.push_str("refused list-size")?),
        HpackFault::Memory => bail!("out of memory"),
    }
}

impl Coders {
    /// At the beginning of a connection.
    pub fn new(alloc: Global) -> Result<Coders> {
        Ok(Coders {
            decoder: Decoder::new(alloc)?,
            encoder: Encoder::new(alloc)?,
        })
    }

    /// Reads the first block of a connection.
    pub fn first_block(&mut self, alloc: Global, told: &mut String, block: &[u8]) -> Result<()> {
        self.decoder = Decoder::new(alloc)?;
        self.block(alloc, told, block)
    }

    /// Reads the next block.
    pub fn block(&mut self, alloc: Global, told: &mut String, block: &[u8]) -> Result<()> {
        if block.len() > 0x7fff_ffff {
            bail!("too many bytes");
        }
        match self.decoder.block(block) {
            Ok(fields) => {
                told.push_str("fields")?;
                push_fields(alloc, told, &fields)
            }
            Err(fault) => push_refusal(alloc, told, fault),
        }
    }

    /// Begins to write the blocks of a connection.
    pub fn begin(&mut self, alloc: Global) -> Result<()> {
        self.encoder = Encoder::new(alloc)?;
        Ok(())
    }

    /// The peer's limit for the table.
    pub fn limit(&mut self, limit: u32) {
        self.encoder.set_limit(limit);
    }

    // The next block that is written.
    fn written(&mut self, alloc: Global, text: &str) -> Result<Blob> {
        let fields = fields_of(alloc, text)?;
        let mut names = fields.as_slice().iter();
        if !names.all(|f| (f.name.len() as u64) < LONG && (f.value.len() as u64) < LONG) {
            bail!("too many bytes");
        }
        Ok(self.encoder.block(&fields)?)
    }

    /// Writes the next block.
    pub fn write(&mut self, alloc: Global, told: &mut String, text: &str) -> Result<()> {
        let block = self.written(alloc, text)?;
        push_hex(alloc, told, "block", block.bytes())
    }

    /// Writes the next block, and reads it.
    pub fn write_and_read(&mut self, alloc: Global, told: &mut String, text: &str) -> Result<()> {
        let block = self.written(alloc, text)?;
        push_hex(alloc, told, "block", block.bytes())?;
        told.push(' ')?;
        self.block(alloc, told, block.bytes())
    }

    /// How many bytes are kept.
    pub fn held(&self, alloc: Global, told: &mut String) -> Result<()> {
        push_number(alloc, told, "decoder", self.decoder.held())?;
        push_number(alloc, told, " encoder", self.encoder.held())
    }
}
