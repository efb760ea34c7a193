//! How much an exchange keeps.

ghost use Rattle.std.specs.Prelude.{◌≡◌, List, min};
ghost use Rattle.filter_model.specs.Config.{FilterConfig};
ghost use Rattle.filter_model.specs.Held.{CoversUngiven};
ghost use Rattle.filter_model.specs.Right.{Call, account};
ghost use Rattle.exchange.specs.Held.{flow_size, held_by, ready_size};
ghost use Rattle.exchange.specs.Stands.{IsAfter};

use crate::exchange::Exchange;
use crate::flow::Flow;
use ext_msgs::Ask;
use half_machine::ask_size;

impl Exchange {
    /// How many bytes of both messages are kept, or 2^64 - 1 where there are more: those that aren't read yet, heads
    /// and trailers, the body bytes at hand, those in asks and those that wait to go out. While the exchange lives they
    /// cover all body bytes that weren't given.
    pub fn held(&self) -> u64
        ensures exact { result ≡ min (held_by self.now) 18_446_744_073_709_551_615 }
        ensures covers { (c : FilterConfig) (h : List Call) → IsAfter c h self.now
            → CoversUngiven c (account c h) (held_by self.now) }
    {
        self.request
            .held()
            .saturating_add(self.response.held())
            .saturating_add(ready_size(&self.ready))
    }
}

impl Flow {
    // What its reader, its half and its outlet keep.
    fn held(&self) -> u64
        ensures { result ≡ min (flow_size self.now) 18_446_744_073_709_551_615 }
    {
        self.reader
            .held()
            .saturating_add(self.half.held())
            .saturating_add(self.half.held_beside())
            .saturating_add(self.outlet.held())
    }
}

fn ready_size(ready: &Option<Ask>) -> u64
    ensures { result ≡ min (ready_size ready.now) 18_446_744_073_709_551_615 }
{
    match ready {
        Some(ask) => ask_size(ask),
        None => 0,
    }
}
