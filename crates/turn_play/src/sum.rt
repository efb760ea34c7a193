//! The value that is called.

use std::sync::Arc;
use std::sync::atomic::AtomicBool;
use std::sync::atomic::Ordering::SeqCst;
use std::thread::yield_now;
use turn_lock::Turned;

/// How often a thread turns at most, until another has come or answered.
pub const MOST_TURNS: u32 = 1_000_000;

/// A sum, and whether another thread has answered.
#[derive(Drop)]
pub struct Sum {
    total: u64,
    answered: Arc<AtomicBool>,
}

/// A call of a sum.
#[derive(Drop)]
pub enum Call {
    Add(u64),
    /// Changes nothing.
    Look(u64),
    /// Turns until another thread has answered.
    Meet,
}

/// What a call answers.
#[derive(Drop)]
pub enum Reply {
    Total(u64),
    /// Whether another thread answered in time.
    Met(bool),
}

impl Sum {
    pub fn new(answered: Arc<AtomicBool>) -> Sum {
        Sum { total: 0, answered }
    }

    fn meet(&self) -> bool {
        for _ in 0..MOST_TURNS {
            if self.answered.load(SeqCst) {
                return true;
            }
            yield_now();
        }
        false
    }
}

// Nothing is proved of a sum: any of them stands for any history.
impl Turned for Sum {
    type Call = Call;

    type Reply = Reply;

    ghost stands = { λ sum history. Unit {0} };

    fn act(&mut self, call: Call) -> Reply {
        match call {
            Call::Add(number) => {
                self.total = self.total.wrapping_add(number);
                Reply::Total(self.total)
            }
            Call::Look(_) => Reply::Total(self.total),
            Call::Meet => Reply::Met(self.meet()),
        }
    }
}
