//! One end of a connection.

ghost use Rattle.std.specs.Prelude.{◌<◌, ◌^◌, ◌∷◌, ◌≡◌, All, IfOk, List, OnOk, length, true};
ghost use Rattle.h2_model.specs.Calls.{Role, kept_streams, now};
ghost use Rattle.h2_model.specs.History.{Call, Open};
ghost use Rattle.h2_laws_kept.specs.StandsFor.{Stands, StandsFor};

use anyhow::{Result, bail};
use ext_msgs::{Field, FieldList};
use h2_session::{Fed, NoStream, Session, SessionFault};
use pb_wire::Blob;
use std::alloc::Global;
use std::marker::Model;

/// A session that stands for the history of its calls.
#[derive(Drop)]
pub struct End {
    session: Session,
}

impl Model for End {
    ghost use Rattle.h2_laws_kept.specs.Kept.{Kept};
    ghost use Rattle.h2_laws_kept.specs.StandsFor.{Stands};

    ghost Value = { Kept };

    ghost view = { λ e. e.session };

    ghost invariant = { λ e. Stands e.session (λ r h. Unit {0}) };
}

// Opens a stream.
fn open(client: &mut Session) -> Result<u32>
    requires { Stands client.old (λ r h. (r.client ≡ true) × (length (kept_streams (now r h)) < r.streams)) }
    ensures opens { (r : Role) (h : List Call) → StandsFor r client.old h
        → OnOk result (StandsFor r client.new (Open ∷ h)) }
{
    match client.open() {
        Ok(id) => Ok(id),
        Err(NoStream) => bail!("no stream can be opened"),
    }
}

// A client's end that opened streams 1 and 3, and that stands for some history.
fn opening(alloc: Global) -> Result<Session>
    ensures { IfOk result (λ s. Stands s (λ r h. Unit {0})) }
{
    let mut client = Session::client(alloc, 2)?;
    open(&mut client)?;
    open(&mut client)?;
    Ok(client)
}

// `:method: GET`, and, where it has any bytes, a field of so many that are no shorter in Huffman form.
fn request(alloc: Global, size: u32) -> Result<FieldList>
    ensures { IfOk result (All (λ f. (length f.name < 2 ^ 32) × (length f.value < 2 ^ 32))) }
{
    let mut list = FieldList::new(alloc);
    list.push(Field {
        name: Blob::of(alloc, b":method")?,
        value: Blob::of(alloc, b"GET")?,
    })?;
    if size == 0 {
        return Ok(list);
    }
    let value = vec![in alloc; b'~'; size as usize]?;
    list.push(Field {
        name: Blob::of(alloc, b"a")?,
        value: Blob::from_vec(value),
    })?;
    Ok(list)
}

impl End {
    /// A server's end.
    pub fn server(alloc: Global) -> Result<End> {
        let session = Session::server(alloc)?;
        Ok(End { session })
    }

    /// A client's end.
    pub fn client(alloc: Global) -> Result<End> {
        let session = Session::client(alloc, 2)?;
        Ok(End { session })
    }

    /// A client's end that opened streams 1 and 3.
    pub fn opened(alloc: Global) -> Result<End> {
        let session = opening(alloc)?;
        Ok(End { session })
    }

    /// Takes bytes of its peer: what they bring, or the code of a refusal. Out of memory it can only be dropped.
    pub fn feed(self, bytes: &[u8]) -> Result<(End, Result<Fed, u32>)> {
        if bytes.len() > 1_000_000 {
            bail!("too many bytes");
        }
        let End { mut session } = self;
        match session.feed(bytes) {
            Ok(fed) => Ok((End { session }, Ok(fed))),
            Err(SessionFault::Code(code)) => Ok((End { session }, Err(code))),
            Err(SessionFault::Memory) => bail!("out of memory"),
        }
    }

    /// Appends the next bytes that go out, at most so many and 64, and answers how many.
    pub fn take(&mut self, out: &mut Vec<u8>, most: usize) -> Result<usize> {
        let mut room = [0u8; 64];
        let count = self.session.take(&mut room[..most.min(64)]) as usize;
        out.extend_from_slice(&room[..count])?;
        Ok(count)
    }

    /// Hands the head of a request over, with a field of so many bytes.
    pub fn head(&mut self, alloc: Global, id: u32, size: u32, last: bool) -> Result<()> {
        if !self.session.may_head(id) {
            bail!("no head may be handed over");
        }
        self.session.head(id, &request(alloc, size)?, last)?;
        Ok(())
    }

    /// Hands bytes over, and answers how many were taken.
    pub fn send(&mut self, id: u32, bytes: &[u8]) -> Result<u32> {
        if !self.session.may_send(id) {
            bail!("no bytes may be handed over");
        }
        Ok(self.session.send(id, bytes)?)
    }

    /// Ends a stream on this side.
    pub fn finish(&mut self, id: u32) -> Result<()> {
        if !self.session.may_send(id) {
            bail!("the stream can't be ended");
        }
        self.session.finish(id);
        Ok(())
    }

    /// Resets a stream.
    pub fn reset(&mut self, id: u32, code: u32) -> Result<()> {
        if !self.session.is_live(id) {
            bail!("no stream is live");
        }
        self.session.reset(id, code);
        Ok(())
    }

    /// What the stream's window lets go out.
    pub fn window(&self, id: u32) -> Result<i64> {
        if !self.session.is_live(id) {
            bail!("no stream is live");
        }
        Ok(self.session.window(id))
    }

    /// The length of the frames other than DATA that wait.
    pub fn control(&self) -> u64 {
        self.session.control()
    }

    /// The number of the stream's bytes that wait.
    pub fn waiting(&self, id: u32) -> u64 {
        self.session.waiting(id)
    }

    /// Whether anything of the stream waits.
    pub fn waits(&self, id: u32) -> bool {
        self.session.waits(id)
    }
}
