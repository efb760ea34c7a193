//! The stages of a processor, in the order in which they are asked.

ghost use Rattle.std.specs.Prelude.{◌≡◌, ◌++◌, ◌∷◌, [], Some, OnOk};
ghost use Rattle.std.specs.Result.{result_ok};
ghost use Rattle.processor_core.specs.Chosen.{Chooses, TellsOver, empty_answer, empty_member, no_change};
ghost use Rattle.rule_book.specs.Ruled.{no_mutation};

use ext_msgs::{Answer, Ask, BodyChange, Common, HeaderMutation, Member, NameList, SetList};
use rule_book::{Stage, Verdict};
use std::alloc::{AllocError, Global};

/// Stages.
#[derive(Drop)]
pub struct Stages<S: Stage> {
    alloc: Global,
    seats: Vec<Option<S>>,
}

fn no_mutation(alloc: Global) -> HeaderMutation
    ensures { result ≡ no_mutation }
{
    HeaderMutation {
        set: SetList::new(alloc),
        remove: NameList::new(alloc),
    }
}

fn no_change(alloc: Global) -> Common
    ensures { result ≡ no_change }
{
    Common {
        replace: false,
        headers: no_mutation(alloc),
        body: BodyChange::Absent,
    }
}

fn empty_member(alloc: Global, ask: &Ask) -> Member
    ensures { result ≡ empty_member ask.now }
{
    match ask {
        Ask::RequestHeaders(_, _) => Member::RequestHeaders(no_change(alloc)),
        Ask::ResponseHeaders(_, _) => Member::ResponseHeaders(no_change(alloc)),
        Ask::RequestBody(_, _) => Member::RequestBody(no_change(alloc)),
        Ask::ResponseBody(_, _) => Member::ResponseBody(no_change(alloc)),
        Ask::RequestTrailers(_) => Member::RequestTrailers(no_mutation(alloc)),
        Ask::ResponseTrailers(_) => Member::ResponseTrailers(no_mutation(alloc)),
    }
}

// The answer where no stage has one. It takes no memory.
fn empty_answer(alloc: Global, ask: &Ask) -> Answer
    ensures { result ≡ empty_answer ask.now }
{
    Answer {
        member: empty_member(alloc, ask),
        modes: None,
        timeout: None,
    }
}

// Gives an ask to the stages in turn, until one answers. The seat of one that is broken is empty from then on.
fn ask_seats<S: Stage>(
    alloc: Global,
    seats: &mut [Option<S>],
    stream: u32,
    ask: &Ask,
) -> Result<Answer, AllocError>
    ensures { Chooses S.stands seats.old stream ask.now seats.new (result_ok result) }
{
    let Some((first, rest)) = seats.split_first_mut() else {
        return Ok(empty_answer(alloc, ask));
    };
    let Some(stage) = first else {
        return ask_seats(alloc, rest, stream, ask);
    };
    match stage.ask(stream, ask) {
        Verdict::Pass => ask_seats(alloc, rest, stream, ask),
        Verdict::Answer(answer) => Ok(answer),
        Verdict::Broken => {
            *first = None;
            ask_seats(alloc, rest, stream, ask)
        }
        Verdict::Memory => Err(AllocError),
    }
}

// Tells the stages that a stream has ended.
fn tell_seats<S: Stage>(seats: &mut [Option<S>], stream: u32)
    ensures { TellsOver S.stands seats.old stream seats.new }
{
    let Some((first, rest)) = seats.split_first_mut() else {
        return;
    };
    if let Some(stage) = first {
        stage.over(stream);
    }
    tell_seats(rest, stream)
}

impl<S: Stage> Stages<S> {
    /// No stages.
    pub(crate) fn new(alloc: Global) -> Stages<S>
        ensures { result.seats.items ≡ [] }
    {
        Stages {
            alloc,
            seats: Vec::new(alloc),
        }
    }

    /// One more stage, which is asked behind the others.
    pub(crate) fn push(&mut self, stage: S) -> Result<(), AllocError>
        ensures { OnOk result (self.new.seats.items ≡ self.old.seats.items ++ Some stage ∷ []) }
    {
        self.seats.push(Some(stage))?;
        Ok(())
    }

    /// What the stages answer to an ask of a stream, or that memory ran out. A stage that says that it is broken is
    /// dropped.
    pub(crate) fn ask(&mut self, stream: u32, ask: &Ask) -> Result<Answer, AllocError>
        ensures { Chooses S.stands self.old.seats.items stream ask.now self.new.seats.items (result_ok result) }
    {
        let alloc = self.alloc;
        ask_seats(alloc, self.seats.as_mut_slice(), stream, ask)
    }

    /// A stream has ended.
    pub(crate) fn over(&mut self, stream: u32)
        ensures { TellsOver S.stands self.old.seats.items stream self.new.seats.items }
    {
        tell_seats(self.seats.as_mut_slice(), stream)
    }
}
