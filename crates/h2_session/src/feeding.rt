//! Bytes that come in.

ghost use Rattle.std.specs.Prelude.{◌≡◌, ◌≤◌, ◌<◌, ◌+◌, ◌^◌, ◌∷◌, [], List, None, length, true, IfOk, IfErr, OnOk, MatchBool, ◌≢◌};
ghost use Rattle.h2_model.specs.Account.{Account};
ghost use Rattle.h2_model.specs.Calls.{IsFault, IsFed, Role, now, used_bytes};
ghost use Rattle.h2_model.specs.History.{Call, Feed};
ghost use Rattle.h2_model.specs.declared.answers.Event.TheVariants as event;
ghost use Rattle.h2_session.specs.Feeding.{Greets, KeepsRole, RefusesBytes, Runs, Told};
ghost use Rattle.h2_laws_kept.specs.Arriving.{IfCode};
ghost use Rattle.h2_laws_kept.specs.StandsFor.{Holds, StandsFor};

use crate::session::Session;
use h2_frames::codes::{PROTOCOL_ERROR, REFUSED_STREAM};
use h2_frames::protocol::PREFACE;
use h2_frames::{FrameFault, Step};
use h2_model::{Event, Fed, SessionFault};

impl Session {
    /// Takes bytes up to the first that brings something, and says what that is. The first connection error is answered
    /// at its byte, and again at every later call. Out of memory, the session can only be dropped.
    pub fn feed(&mut self, bytes: &[u8]) -> Result<Fed, SessionFault>
        requires { length bytes.now < 2 ^ 32 }
        ensures within { IfOk result (λ f. f.used ≤ length bytes.now) }
        ensures fed { (r : Role) (h : List Call) → StandsFor r self.old h →
            IfOk result (λ f. IsFed (now r h) bytes.now f) }
        ensures fault { (r : Role) (h : List Call) → StandsFor r self.old h →
            IfErr result (λ e. IsFault (now r h) bytes.now e) }
        ensures stands { (r : Role) (h : List Call) → StandsFor r self.old h →
            OnOk result (StandsFor r self.new (Feed (used_bytes bytes.now (now r h)) ∷ h)) }
        ensures refused { (r : Role) (h : List Call) → StandsFor r self.old h →
            IfErr result (IfCode (λ code. StandsFor r self.new (Feed (used_bytes bytes.now (now r h)) ∷ h))) }
    {
        // A call takes the oldest that waits, whatever it answers.
        let refused = self.unreported.pop_front();
        if let Some(code) = self.violation {
            return Err(SessionFault::Code(code));
        }
        if let Some(id) = refused {
            return Ok(Fed {
                used: 0,
                event: Event::Reset(id, REFUSED_STREAM),
            });
        }
        let greeted = self.greet(bytes)?;
        self.read(bytes, greeted)
    }

    // Reads frames from a place on, up to the first that brings something.
    fn read(&mut self, bytes: &[u8], from: usize) -> Result<Fed, SessionFault>
        requires length { length bytes.now < 2 ^ 32 }
        requires from { from ≤ length bytes.now }
        ensures within { IfOk result (λ f. f.used ≤ length bytes.now) }
        ensures told { (a : Account) → Greets self.old a bytes.now from → IfOk result (Told self.new a bytes.now) }
        ensures refuses { (a : Account) → Greets self.old a bytes.now from →
            IfErr result (IfCode (RefusesBytes self.new a bytes.now)) }
        ensures role { KeepsRole self.old self.new }
    {
        let mut used = from;
        while used < bytes.len() {
            let (_, rest) = bytes.split_at(used);
            match self.reader.feed(rest) {
                Ok(Step::More) => {
                    return Ok(Fed {
                        used: bytes.len() as u32,
                        event: Event::Nothing,
                    });
                }
                Ok(Step::Got(frame, n)) => {
                    used += n as usize;
                    let event = self.arrive(frame)?;
                    if !is_nothing(&event) {
                        return Ok(Fed {
                            used: used as u32,
                            event,
                        });
                    }
                }
                Err(FrameFault::Code(code)) => return Err(self.fail(code)),
                Err(FrameFault::Memory) => return Err(SessionFault::Memory),
            }
        }
        Ok(Fed {
            used: used as u32,
            event: Event::Nothing,
        })
    }

    // The client's preface: how many of the bytes belong to it.
    fn greet(&mut self, bytes: &[u8]) -> Result<usize, SessionFault>
        ensures within { IfOk result (λ n. n ≤ length bytes.now) }
        ensures greets { (a : Account) → Runs self.old a a bytes.now 0 →
            IfOk result (λ n. Greets self.new a bytes.now n) }
        ensures refuses { (a : Account) → Runs self.old a a bytes.now 0 →
            IfErr result (IfCode (RefusesBytes self.new a bytes.now)) }
        ensures role { KeepsRole self.old self.new }
    {
        let mut used = 0;
        while self.greeted < PREFACE.len() && used < bytes.len() {
            if bytes[used] != PREFACE[self.greeted] {
                return Err(self.fail(PROTOCOL_ERROR));
            }
            self.greeted += 1;
            used += 1;
        }
        Ok(used)
    }
}

fn is_nothing(told: &Event) -> bool
    ensures { MatchBool result (told.now ≡ event.Nothing) (told.now ≢ event.Nothing) }
{
    matches!(told, Event::Nothing)
}
