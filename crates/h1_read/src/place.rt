//! Where the bytes of an unfinished head or trailer section end. A reader keeps this place, so that it passes each byte
//! once, however they are cut, and asks the parser only where that has something to say.

ghost use Rattle.std.specs.Prelude.{◌≡◌, ◌<◌};
ghost use Rattle.http_model.specs.Bytes.{is_token_byte as token_byte, is_value_byte as value_byte};
ghost use Rattle.h1_read.specs.Places.{place_on, line_on, start_on, name_on, value_on, end_on, first_on, empty_on};
ghost use Rattle.h1_read.specs.Places.{places, section_start, is_stop, IsScan, IsNextStop};

use crate::scan::{MAX_FIELDS, MAX_HEAD};
use httparse::{is_header_name_token, is_header_value_token};

/// What the bytes of a section's line so far can be.
#[derive(Clone, Copy)]
pub enum Shape {
    Start,
    InName,
    InValue,
    /// Behind the CR of an empty line.
    AtEmptyEnd,
    /// Behind the CR of a field line.
    AtEnd,
}

/// Where the bytes so far end.
#[derive(Clone, Copy)]
pub enum Place {
    /// Before the first line, where empty lines don't count.
    Before,
    /// Behind a CR there.
    BeforeCr,
    FirstLine,
    /// Behind the first line, which the parser has to read.
    FirstEnd,
    /// In a line of the section; at most so many fields may begin from this line on.
    Fields(usize, Shape),
    /// The section may be ended or bad, which the parser tells.
    Ended,
}

/// What stands in some bytes.
#[derive(Clone, Copy)]
pub enum Scan {
    /// Nothing that the parser has to read yet, and here they end.
    Quiet(Place),
    /// The parser has to read up to the last of these first bytes.
    Stop(usize),
}

fn is_token_byte(b: u8) -> bool
    ensures { result ≡ token_byte b }
{
    is_header_name_token(b)
}

fn is_value_byte(b: u8) -> bool
    ensures { result ≡ value_byte b }
{
    is_header_value_token(b)
}

// At the start of a line.
fn start_on(left: usize, b: u8) -> Place
    ensures { result ≡ start_on left b }
{
    if is_token_byte(b) {
        if left == 0 {
            return Place::Ended;
        }
        return Place::Fields(left, Shape::InName);
    }
    if b == b'\r' {
        return Place::Fields(left, Shape::AtEmptyEnd);
    }
    Place::Ended
}

fn name_on(left: usize, b: u8) -> Place
    ensures { result ≡ name_on left b }
{
    if is_token_byte(b) {
        return Place::Fields(left, Shape::InName);
    }
    if b == b':' {
        return Place::Fields(left, Shape::InValue);
    }
    Place::Ended
}

// Behind the CR of a field line, or where it has none.
fn end_on(left: usize, b: u8) -> Place
    ensures { result ≡ end_on left b }
{
    if left == 0 {
        return Place::Ended;
    }
    if b == b'\n' {
        return Place::Fields(left - 1, Shape::Start);
    }
    Place::Ended
}

fn value_on(left: usize, b: u8) -> Place
    ensures { result ≡ value_on left b }
{
    if is_value_byte(b) {
        return Place::Fields(left, Shape::InValue);
    }
    if b == b'\r' {
        return Place::Fields(left, Shape::AtEnd);
    }
    end_on(left, b)
}

// One byte on in a section.
fn line_on(left: usize, shape: Shape, b: u8) -> Place
    ensures { result ≡ line_on left shape b }
{
    match shape {
        Shape::Start => start_on(left, b),
        Shape::InName => name_on(left, b),
        Shape::InValue => value_on(left, b),
        Shape::AtEmptyEnd => Place::Ended,
        Shape::AtEnd => end_on(left, b),
    }
}

// One byte on before the first line, or in it.
fn first_on(b: u8) -> Place
    ensures { result ≡ first_on b }
{
    if b == b'\n' {
        Place::FirstEnd
    } else {
        Place::FirstLine
    }
}

fn empty_on(b: u8) -> Place
    ensures { result ≡ empty_on b }
{
    if b == b'\n' {
        Place::Before
    } else {
        Place::FirstLine
    }
}

// One byte on.
fn place_on(place: Place, b: u8) -> Place
    ensures { result ≡ place_on place b }
{
    match place {
        Place::Before => {
            if b == b'\r' {
                return Place::BeforeCr;
            }
            empty_on(b)
        }
        Place::BeforeCr => empty_on(b),
        Place::FirstLine => first_on(b),
        Place::FirstEnd => line_on(MAX_FIELDS, Shape::Start, b),
        Place::Fields(left, shape) => line_on(left, shape, b),
        Place::Ended => Place::Ended,
    }
}

fn is_stop(place: Place) -> bool
    ensures { result ≡ is_stop place }
{
    match place {
        Place::FirstEnd => true,
        Place::Ended => true,
        _ => false,
    }
}

/// Where bytes behind a place end.
pub fn place_behind(place: Place, bytes: &[u8]) -> Place
    ensures { result ≡ places place bytes.now }
{
    let mut now = place;
    for at in 0..bytes.len() {
        now = place_on(now, bytes[at]);
    }
    now
}

/// Where the bytes of a trailer section end.
pub fn section_place(bytes: &[u8]) -> Place
    ensures { result ≡ places section_start bytes.now }
{
    place_behind(Place::Fields(MAX_FIELDS, Shape::Start), bytes)
}

/// Looks for the first byte behind a place that the parser has to read.
pub fn first_stop(place: Place, bytes: &[u8]) -> Scan
    ensures { IsScan place bytes.now result }
{
    let mut now = place;
    for at in 0..bytes.len() {
        now = place_on(now, bytes[at]);
        if is_stop(now) {
            return Scan::Stop(at + 1);
        }
    }
    Scan::Quiet(now)
}

/// The same of a head or a section of which so many bytes came before. The parser also has to read where it may take no
/// more.
pub fn next_stop(place: Place, before: usize, bytes: &[u8]) -> Scan
    requires { before < 32768 }
    ensures { IsNextStop place before bytes.now result }
{
    let room = MAX_HEAD - before;
    if bytes.len() < room {
        return first_stop(place, bytes);
    }
    match first_stop(place, &bytes[..room]) {
        Scan::Quiet(_) => Scan::Stop(room),
        Scan::Stop(n) => Scan::Stop(n),
    }
}
