//! The asks that are out.

ghost use Rattle.std.specs.Prelude.{◌≡◌, ◌<◌, ◌≤◌, ◌++◌, ◌∷◌, [], length, take, drop, filter, slice_get, slice_index_or, IfOk};
ghost use Rattle.std.specs.List.{list_any};
ghost use Rattle.half_machine.specs.Marks.{is_of_headers, is_of_body, is_of_trailers};

use std::alloc::{AllocError, Global};
use std::marker::Model;

/// An ask that is out. The bytes of one of the body are lent by the hold; its flag is `end_of_stream`.
#[derive(Clone, Copy)]
pub enum Mark {
    Headers,
    Body(bool),
    Trailers,
}

/// The asks that are out, oldest first: never more than four. Only the constructor takes memory.
#[derive(Drop)]
pub struct Marks {
    items: Vec<Mark>,
}

impl Model for Marks {
    ghost use Rattle.std.specs.Prelude.{List};
    ghost use Rattle.half_machine.specs.declared.marks.Mark.{Mark};
    ghost use Rattle.half_machine.specs.Marks.{HasSlots};

    ghost Value = { List Mark };

    ghost view = { λ m. m.items.items };

    ghost invariant = { λ m. HasSlots m.items };
}

impl Marks {
    pub fn new(alloc: Global) -> Result<Marks, AllocError>
        ensures { IfOk result (λ m. m ≡ []) }
    {
        let items = Vec::with_capacity(alloc, 4)?;
        Ok(Marks { items })
    }

    /// How many asks are out.
    pub fn len(&self) -> u32
        ensures { result ≡ length self.now }
    {
        self.items.len() as u32
    }

    /// One more is out.
    pub fn push(&mut self, mark: Mark)
        requires { length self.old < 4 }
        ensures { self.new ≡ self.old ++ mark ∷ [] }
    {
        self.items.push_reserved(mark);
    }

    /// The oldest.
    pub fn first(&self) -> Option<Mark>
        ensures { result ≡ slice_get self.now 0 }
    {
        self.items.first().copied()
    }

    /// The oldest was answered.
    pub fn drop_first(&mut self)
        requires { 0 < length self.old }
        ensures { self.new ≡ drop 1 self.old }
    {
        self.items.remove(0);
    }

    /// Whether one of the headers is out.
    pub fn has_headers(&self) -> bool
        ensures { result ≡ list_any is_of_headers self.now }
    {
        self.items.iter().any(|mark| match mark {
            Mark::Headers => true,
            Mark::Body(_) | Mark::Trailers => false,
        })
    }

    /// Whether one of the body is out.
    pub fn has_body(&self) -> bool
        ensures { result ≡ list_any is_of_body self.now }
    {
        self.items.iter().any(|mark| match mark {
            Mark::Body(_) => true,
            Mark::Headers | Mark::Trailers => false,
        })
    }

    /// Whether one of the trailers is out.
    pub fn has_trailers(&self) -> bool
        ensures { result ≡ list_any is_of_trailers self.now }
    {
        self.items.iter().any(|mark| match mark {
            Mark::Trailers => true,
            Mark::Headers | Mark::Body(_) => false,
        })
    }

    /// The i-th, from 0.
    pub fn at(&self, i: u32) -> Mark
        requires { i < length self.now }
        ensures { result ≡ slice_index_or self.now i result }
    {
        self.items[i as usize]
    }

    /// How many of the body are before the i-th.
    pub fn bodies_before(&self, i: u32) -> u32
        requires { i ≤ length self.now }
        ensures { result ≡ length (filter is_of_body (take i self.now)) }
    {
        bodies_before(self.items.as_slice(), i)
    }
}

fn is_of_body(mark: Mark) -> bool
    ensures { result ≡ is_of_body mark }
{
    match mark {
        Mark::Body(_) => true,
        Mark::Headers | Mark::Trailers => false,
    }
}

#[tactic(auto, using(crate::proofs::Bodies::one_more, crate::proofs::Bodies::none_more))]
fn bodies_before(marks: &[Mark], i: u32) -> u32
    requires { i ≤ length marks.now }
    ensures { result ≡ length (filter is_of_body (take i marks.now)) }
{
    let mut n = 0u32;
    'marks: for k in 0..i {
        if is_of_body(marks[k as usize]) {
            n += 1;
        }
    }
    n
}
