//! An exchange, and what it needs to know for its calls.

ghost use Rattle.ext_config.specs.Valid.{IsValid};

use crate::fault::DriveFault;
use exchange::Exchange;
use ext_config::Config;
use filter_model::{Event, Next, Side, Taken};
use pb_wire::Blob;
use std::alloc::Global;
use std::marker::Model;

/// An exchange, each of whose calls is tested for its condition first. Once a call ran out of memory none follows.
#[derive(Drop)]
pub struct Driver {
    exchange: Exchange,
    // The most bytes of an answer.
    answer_limit: u32,
    // A call ran out of memory.
    spent: bool,
}

// What an exchange has inside is nothing to the program: it would open it at each call.
impl Model for Driver {
    ghost use Rattle.exchange_driver.specs.Driving.{Driving};

    ghost Value = { Unit {0} };

    ghost view = { λ d. tt };

    ghost invariant = { λ d. Driving d.exchange d.answer_limit d.spent };
}

impl Driver {
    /// An exchange that was told nothing.
    pub(crate) fn new(alloc: Global, config: &Config) -> Result<Driver, DriveFault>
        requires { IsValid config.now }
    {
        let exchange = Exchange::new(alloc, config)?;
        Ok(Driver {
            exchange,
            answer_limit: config.answer_limit,
            spent: false,
        })
    }

    /// How many bytes a side may bring.
    pub fn room(&self, side: Side) -> u32 {
        self.exchange.room(side)
    }

    /// A side brings bytes. The answer is how many were taken.
    pub fn bytes(&mut self, side: Side, bytes: Blob) -> Result<u32, DriveFault> {
        if self.spent {
            return Err(DriveFault::Memory);
        }
        match self.exchange.step(Event::Bytes(side, bytes)) {
            Ok(n) => Ok(n),
            Err(_) => {
                self.spent = true;
                Err(DriveFault::Memory)
            }
        }
    }

    /// A message of the processor.
    pub fn answer(&mut self, bytes: Blob) -> Result<(), DriveFault> {
        if self.spent {
            return Err(DriveFault::Memory);
        }
        if bytes.len() > self.answer_limit as usize {
            return Err(DriveFault::NotNow);
        }
        match self.exchange.step(Event::Answer(bytes)) {
            Ok(_) => Ok(()),
            Err(_) => {
                self.spent = true;
                Err(DriveFault::Memory)
            }
        }
    }

    /// What a side is given next, at most `max` bytes.
    pub fn take(&mut self, side: Side, max: u32) -> Result<Taken, DriveFault> {
        if self.spent {
            return Err(DriveFault::Memory);
        }
        if max == 0 {
            return Err(DriveFault::NotNow);
        }
        match self.exchange.take(side, max) {
            Ok(taken) => Ok(taken),
            Err(_) => {
                self.spent = true;
                Err(DriveFault::Memory)
            }
        }
    }

    /// What the processor's stream is given next. An ask that is given is sent at once.
    pub fn next(&mut self) -> Result<Next, DriveFault> {
        if self.spent {
            return Err(DriveFault::Memory);
        }
        match self.exchange.next() {
            Ok(Next::Ask(ask)) => match self.exchange.step(Event::Sent) {
                Ok(_) => Ok(Next::Ask(ask)),
                Err(_) => {
                    self.spent = true;
                    Err(DriveFault::Memory)
                }
            },
            Ok(next) => Ok(next),
            Err(_) => {
                self.spent = true;
                Err(DriveFault::Memory)
            }
        }
    }
}
