//! The order of the asks of both directions.

ghost use Rattle.std.specs.Prelude.{◌≡◌, ◌<◌, ◌≤◌, ◌+◌, ◌++◌, ◌∷◌, [], drop, length, slice_get, IfOk};
ghost use Rattle.exchange.specs.Order.{so_many};

use http_model::Direction;
use std::alloc::{AllocError, Global};
use std::marker::Model;

/// The directions of the asks that were made and not sent, oldest first: at most eight.
#[derive(Drop)]
pub(crate) struct Order {
    items: Vec<Direction>,
}

impl Model for Order {
    ghost use Rattle.std.specs.Prelude.{List};
    ghost use Rattle.http_model.specs.declared.types.Direction.{Direction};
    ghost use Rattle.exchange.specs.Order.{HasEight};

    ghost Value = { List Direction };

    ghost view = { λ o. o.items.items };

    ghost invariant = { λ o. HasEight o.items };
}

impl Order {
    pub fn new(alloc: Global) -> Result<Order, AllocError>
        ensures { IfOk result (λ o. o ≡ []) }
    {
        let items = Vec::with_capacity(alloc, 8)?;
        Ok(Order { items })
    }

    /// So many more were made of a direction.
    pub fn push_many(&mut self, direction: Direction, made: u32)
        requires { length self.old + made ≤ 8 }
        ensures { self.new ≡ self.old ++ so_many made direction }
    {
        'asks: for _ in 0..made {
            self.push(direction);
        }
    }

    // One more was made.
    fn push(&mut self, direction: Direction)
        requires { length self.old < 8 }
        ensures { self.new ≡ self.old ++ direction ∷ [] }
    {
        self.items.push_reserved(direction);
    }

    /// The i-th, from 0, where there is one.
    pub fn at(&self, i: u32) -> Option<Direction>
        ensures { result ≡ slice_get self.now i }
    {
        self.items.get(i as usize).copied()
    }

    /// The oldest, where there is one, was sent.
    pub fn drop_first(&mut self)
        ensures { self.new ≡ drop 1 self.old }
    {
        if !self.items.is_empty() {
            self.items.remove(0);
        }
    }
}
