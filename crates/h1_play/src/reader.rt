//! Readers, and what they answer.

use crate::text::{push_fields, push_number};
use anyhow::{Result, bail};
use ext_msgs::FieldList;
use h1_read::{BodyReader, H1Fault, HeadReader, Message, Piece};
use http_model::Length;
use std::alloc::Global;

/// A reader of a script.
#[derive(Drop)]
pub enum Reader {
    Head(HeadReader),
    Body(BodyReader),
}

/// What a reader answers to a piece.
#[derive(Drop)]
pub enum Answer {
    More,
    Head(Message),
    /// Content, by its start and length in the piece.
    Data(usize, usize),
    /// The end of the body, with its trailers.
    End(FieldList),
    Refused(&'static str),
}

impl Reader {
    /// A new reader by its word.
    pub fn begin(alloc: Global, word: &str) -> Result<Reader> {
        match word {
            "request" => Ok(Reader::Head(HeadReader::request(alloc)?)),
            "response" => Ok(Reader::Head(HeadReader::response(alloc, false)?)),
            "response-to-head" => Ok(Reader::Head(HeadReader::response(alloc, true)?)),
            _ => Ok(Reader::Body(BodyReader::new(alloc, body_of(word)?)?)),
        }
    }

    /// The answer to a piece, and how many of its bytes were used.
    pub fn feed(&mut self, piece: &[u8]) -> Result<(Answer, usize)> {
        if piece.len() > 1_000_000 {
            bail!("too many bytes");
        }
        match self {
            Reader::Head(head) => match head.feed(piece) {
                Ok(None) => Ok((Answer::More, piece.len())),
                Ok(Some((message, used))) => Ok((Answer::Head(message), used as usize)),
                Err(fault) => Ok((Answer::Refused(name_of(fault)?), 0)),
            },
            Reader::Body(body) => match body.feed(piece) {
                Ok((given, used)) => Ok((given_of(given), used as usize)),
                Err(fault) => Ok((Answer::Refused(name_of(fault)?), 0)),
            },
        }
    }

    /// How many bytes it keeps.
    pub fn held(&self) -> u64 {
        match self {
            Reader::Head(head) => head.held(),
            Reader::Body(body) => body.held(),
        }
    }

    /// What the end of the bytes comes to.
    pub fn end(&self) -> Result<&'static str> {
        match self {
            Reader::Head(_) => bail!("the end of a head"),
            Reader::Body(body) => match body.end() {
                Ok(()) => Ok("whole"),
                Err(fault) => name_of(fault),
            },
        }
    }
}

// The length of a body by its reader's word.
fn body_of(word: &str) -> Result<Length> {
    match word {
        "body-none" => Ok(Length::NoBody),
        "body-chunked" => Ok(Length::Chunked),
        "body-close" => Ok(Length::Close),
        _ => match word.strip_prefix("body-") {
            Some(number) => Ok(Length::Known(number.parse::<u64>()?)),
            None => bail!("no reader: {word}"),
        },
    }
}

fn given_of(piece: Piece) -> Answer {
    match piece {
        Piece::More => Answer::More,
        Piece::Data(start, len) => Answer::Data(start as usize, len as usize),
        Piece::End(trailers) => Answer::End(trailers),
    }
}

fn name_of(fault: H1Fault) -> Result<&'static str> {
    match fault {
        H1Fault::BadHead => Ok("refused bad-head"),
        H1Fault::LongHead => Ok("refused long-head"),
        H1Fault::BadLength => Ok("refused bad-length"),
        H1Fault::BadChunk => Ok("refused bad-chunk"),
        H1Fault::Version => Ok("refused version"),
        H1Fault::Method => Ok("refused method"),
        H1Fault::CutShort => Ok("refused cut-short"),
        H1Fault::Memory => bail!("out of memory"),
    }
}

fn push_head(alloc: Global, told: &mut String, message: &Message) -> Result<()> {
    told.push_str("head")?;
    push_fields(told, &message.head)?;
    match message.length {
        Length::NoBody => told.push_str(" body-none")?,
        Length::Known(bytes) => push_number(alloc, told, " body", bytes)?,
        Length::Chunked => told.push_str(" body-chunked")?,
        Length::Close => told.push_str(" body-close")?,
    }
    if message.expects {
        told.push_str(" expects")?;
    }
    Ok(())
}

/// Appends an answer, and how many bytes were used for it.
pub fn push_answer(alloc: Global, told: &mut String, answer: &Answer, used: usize) -> Result<()> {
    match answer {
        Answer::More => told.push_str("more")?,
        Answer::Head(message) => push_head(alloc, told, message)?,
        Answer::Data(start, len) => {
            push_number(alloc, told, "data", *start as u64)?;
            push_number(alloc, told, " of", *len as u64)?;
        }
        Answer::End(trailers) => {
            told.push_str("end")?;
            push_fields(told, trailers)?;
        }
        Answer::Refused(fault) => return Ok(told.push_str(fault)?),
    }
    push_number(alloc, told, " used", used as u64)
}
