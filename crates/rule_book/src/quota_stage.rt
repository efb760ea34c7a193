//! A stage that lets so many requests pass.

ghost use Rattle.std.specs.Prelude.{◌≡◌, [], List};
ghost use Rattle.rule_book.specs.Stages.{Conduct, StageCall};
ghost use Rattle.rule_book.specs.Counted.{QuotaStands, counted, is_request_head, rationed, said};

use crate::ruled::reply;
use crate::stage::{Stage, Verdict};
use ext_msgs::{Answer, Ask};
use pb_wire::Blob;
use std::alloc::Global;

/// A stage that answers 429 to request heads behind the first `streams`, and is broken behind `life` asks. It answers
/// nothing else.
#[derive(Drop)]
pub struct QuotaStage {
    alloc: Global,
    streams: u64,
    life: u64,
    // The asks, and the request heads among them, that it was given.
    asks: u64,
    heads: u64,
}

impl QuotaStage {
    /// A stage that was asked nothing. A `life` of 0 has no end.
    pub fn new(alloc: Global, streams: u64, life: u64) -> QuotaStage
        ensures { QuotaStands result (rationed streams life) [] }
    {
        QuotaStage {
            alloc,
            streams,
            life,
            asks: 0,
            heads: 0,
        }
    }

    // What is said to an ask, by the counts before it.
    #[tactic(auto, unfolding(crate::specs::Counted::said))]
    fn say(&self, is_head: bool) -> Verdict
        ensures { result ≡ said self.now.streams self.now.life is_head self.now.asks self.now.heads }
    {
        if self.life != 0 && self.life <= self.asks {
            return Verdict::Broken;
        }
        if is_head && self.streams <= self.heads {
            return Verdict::Answer(Answer {
                member: reply(self.alloc, 429, Blob::new(self.alloc)),
                modes: None,
                timeout: None,
            });
        }
        Verdict::Pass
    }
}

impl Stage for QuotaStage {
    ghost stands = { QuotaStands };

    fn ask(&mut self, _stream: u32, ask: &Ask) -> Verdict {
        let is_head = is_request_head(ask);
        let verdict = self.say(is_head);
        self.asks = counted(true, self.asks);
        self.heads = counted(is_head, self.heads);
        verdict
    }

    fn over(&mut self, _stream: u32) {}
}

// One more, or as many. A count stays at the end of its type.
fn counted(is_one: bool, n: u64) -> u64
    ensures { result ≡ counted is_one n }
{
    if is_one { n.saturating_add(1) } else { n }
}

fn is_request_head(ask: &Ask) -> bool
    ensures { result ≡ is_request_head ask.now }
{
    match ask {
        Ask::RequestHeaders(_, _) => true,
        Ask::ResponseHeaders(_, _) | Ask::RequestBody(_, _) | Ask::ResponseBody(_, _) => false,
        Ask::RequestTrailers(_) | Ask::ResponseTrailers(_) => false,
    }
}
