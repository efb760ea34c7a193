//! An exchange is fed what arrived on a link.

ghost use Rattle.std.specs.Prelude.{◌≡◌, List, IfOk, OnOk, is_some};
ghost use Rattle.filter_model.specs.Config.{FilterConfig};
ghost use Rattle.filter_model.specs.Right.{Call, IsReady};
ghost use Rattle.exchange.specs.Stands.{IsAfter};
ghost use Rattle.trace_model.specs.Rounds.{calls_fed, feed_of, link_fed};
ghost use Rattle.trace_player.specs.Ties.{IsDriven, link_of};

use crate::link::Link;
use exchange::Exchange;
use filter_model::{Event, Side};
use std::alloc::{AllocError, Global};

/// Where there is room: as many bytes as wait and fit, or the end behind the last, once. Whether something was told.
pub(crate) fn feed(
    alloc: Global,
    exchange: &mut Exchange,
    side: Side,
    link: &mut Link,
) -> Result<bool, AllocError>
    requires { IsDriven exchange.old }
    ensures told { (c : FilterConfig) (h : List Call) → IsAfter c h exchange.old → IsReady h
        → OnOk result (IsAfter c (calls_fed (feed_of c side h (link_of link.old)) h) exchange.new) }
    ensures link { (c : FilterConfig) (h : List Call) → IsAfter c h exchange.old → IsReady h
        → OnOk result (link_of link.new ≡ link_fed (feed_of c side h (link_of link.old)) (link_of link.old)) }
    ensures some { (c : FilterConfig) (h : List Call) → IsAfter c h exchange.old → IsReady h
        → IfOk result (λ some. some ≡ is_some (feed_of c side h (link_of link.old))) }
    ensures over { link.new.over ≡ link.old.over }
{
    let room = exchange.room(side);
    if room == 0 {
        return Ok(false);
    }
    if link.waiting.is_empty() {
        if !link.is_ending() {
            return Ok(false);
        }
        link.told = true;
        exchange.step(Event::End(side))?;
        return Ok(true);
    }
    let front = link.waiting.front(alloc, room)?;
    let n = exchange.step(Event::Bytes(side, front))?;
    link.waiting.drop_front(n);
    Ok(true)
}
