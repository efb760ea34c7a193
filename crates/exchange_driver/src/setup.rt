//! What exchanges are made with.

use crate::driver::Driver;
use crate::fault::DriveFault;
use ext_config::{Config, read_config};
use std::alloc::Global;
use std::marker::Model;

/// A configuration that was read.
#[derive(Drop)]
pub struct Setup {
    alloc: Global,
    config: Config,
}

impl Model for Setup {
    ghost use Rattle.ext_config.specs.Valid.{IsValid};

    ghost Value = { Unit {0} };

    ghost view = { λ s. tt };

    ghost invariant = { λ s. IsValid s.config };
}

impl Setup {
    /// The configuration of this JSON text.
    pub fn read(alloc: Global, json: &str) -> Result<Setup, DriveFault> {
        let config = read_config(alloc, json.as_bytes()).map_err(|_| DriveFault::Config)?;
        Ok(Setup { alloc, config })
    }

    /// An exchange that was told nothing.
    pub fn exchange(&self) -> Result<Driver, DriveFault> {
        Driver::new(self.alloc, &self.config)
    }
}
