//! Which ask is due.

ghost use Rattle.std.specs.Prelude.{◌≡◌, ◌<◌};
ghost use Rattle.filter_model.specs.Course.{is_no_ask};
ghost use Rattle.half_machine.specs.Due.{streamed_due, buffered_due, partial_due, body_due, trailers_due, due_at, passing_in, made_with, mark_for, lent_by};

use crate::facts::{Arrived, Asked, Ruled, is_bodiless, is_partial, mode_of};
use crate::marks::Mark;
use ext_msgs::BodyMode;

/// An ask that is due: of the head, of the first so many bytes at hand, with `end_of_stream`, or of the trailers.
#[derive(Clone, Copy)]
pub enum Due {
    Headers,
    Body(u32, bool),
    Trailers,
}

/// The greatest piece that is asked or comes at once.
pub(crate) const PIECE: u32 = 16_384;

fn streamed_due(arrived: &Arrived, asked: &Asked, at_hand: u32) -> Option<Due>
    ensures { result ≡ streamed_due arrived.now asked.now at_hand }
{
    let ends = arrived.whole && !arrived.trailers;
    if at_hand == 0 {
        if ends && asked.body && !asked.last {
            return Some(Due::Body(0, true));
        }
        return None;
    }
    if at_hand <= PIECE {
        return Some(Due::Body(at_hand, ends));
    }
    Some(Due::Body(PIECE, false))
}

fn buffered_due(arrived: &Arrived, asked: &Asked, at_hand: u32) -> Option<Due>
    ensures { result ≡ buffered_due arrived.now asked.now at_hand }
{
    if arrived.whole && !asked.body {
        return Some(Due::Body(at_hand, !arrived.trailers));
    }
    None
}

fn partial_due(arrived: &Arrived, asked: &Asked, limit: u32, at_hand: u32) -> Option<Due>
    ensures { result ≡ partial_due arrived.now asked.now limit at_hand }
{
    if asked.body {
        return None;
    }
    if limit < at_hand {
        return Some(Due::Body(limit, false));
    }
    if arrived.whole {
        return Some(Due::Body(at_hand, !arrived.trailers));
    }
    None
}

/// The piece of the body that is due, once the headers are settled.
pub fn body_due(
    arrived: &Arrived,
    rule: &Ruled,
    asked: &Asked,
    limit: u32,
    at_hand: u32,
) -> Option<Due>
    ensures { result ≡ body_due arrived.now rule.now asked.now limit at_hand }
{
    if is_bodiless(arrived.framed) {
        return None;
    }
    match mode_of(rule) {
        BodyMode::NoAsk => None,
        BodyMode::Streamed => streamed_due(arrived, asked, at_hand),
        BodyMode::Buffered => buffered_due(arrived, asked, at_hand),
        BodyMode::Partial => partial_due(arrived, asked, limit, at_hand),
    }
}

/// The ask of the trailers, where it is due behind the body.
pub fn trailers_due(arrived: &Arrived, rule: &Ruled, asked: &Asked) -> Option<Due>
    ensures { result ≡ trailers_due arrived.now rule.now asked.now }
{
    if rule.modes.trailers && arrived.whole && arrived.trailers && !asked.trailers {
        return Some(Due::Trailers);
    }
    None
}

/// The ask that is due, permitted or not.
pub fn next_due(
    arrived: &Arrived,
    rule: &Ruled,
    asked: &Asked,
    headers_out: bool,
    limit: u32,
    at_hand: u32,
) -> Option<Due>
    ensures { result ≡ due_at arrived.now rule.now asked.now headers_out
        (body_due arrived.now rule.now asked.now limit at_hand)
        (trailers_due arrived.now rule.now asked.now) }
{
    if !arrived.head || rule.released || rule.stopped {
        return None;
    }
    if rule.modes.headers && !asked.any {
        return Some(Due::Headers);
    }
    if headers_out {
        return None;
    }
    match body_due(arrived, rule, asked, limit, at_hand) {
        Some(due) => Some(due),
        None => trailers_due(arrived, rule, asked),
    }
}

/// Body bytes that no ask covers pass.
pub fn is_passing(rule: &Ruled, asked: &Asked, body_out: bool) -> bool
    ensures { result ≡ passing_in rule.now asked.now body_out }
{
    let mode = mode_of(rule);
    rule.released
        || (!body_out && (rule.stopped || is_no_ask(mode) || (is_partial(mode) && asked.body)))
}

pub fn is_no_ask(mode: BodyMode) -> bool
    ensures { result ≡ is_no_ask mode }
{
    match mode {
        BodyMode::NoAsk => true,
        BodyMode::Streamed | BodyMode::Buffered | BodyMode::Partial => false,
    }
}

/// What is remembered of the asks, with this one.
pub fn made_with(asked: &Asked, due: Due) -> Asked
    requires unsent { asked.now.unsent < 4 }
    requires unhanded { asked.now.unhanded < 4 }
    ensures { result ≡ made_with due asked.now }
{
    let (body, last, trailers) = match due {
        Due::Headers => (asked.body, asked.last, asked.trailers),
        Due::Body(_, last) => (true, asked.last || last, asked.trailers),
        Due::Trailers => (asked.body, asked.last, true),
    };
    Asked {
        any: true,
        body,
        last,
        trailers,
        unsent: asked.unsent + 1,
        unhanded: asked.unhanded + 1,
    }
}

/// How it stands among the asks that are out.
pub fn mark_for(due: Due) -> Mark
    ensures { result ≡ mark_for due }
{
    match due {
        Due::Headers => Mark::Headers,
        Due::Body(_, last) => Mark::Body(last),
        Due::Trailers => Mark::Trailers,
    }
}

/// How many bytes at hand it takes, where it is one of the body.
pub fn lent_by(due: Due) -> Option<u32>
    ensures { result ≡ lent_by due }
{
    match due {
        Due::Body(n, _) => Some(n),
        Due::Headers | Due::Trailers => None,
    }
}
