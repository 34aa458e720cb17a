//! What a body does after a list of entries, as a value.
#![tactic(auto)]

ghost use Rattle.std.specs.Prelude.{◌≡◌, ◌++◌, [], ◌∷◌, ◌+◌, Some, IfOk};
ghost use Rattle.chord_base.specs.Bodies.{replied, placed, answered, Over};
ghost use Rattle.chord_base.specs.Called.{start_of};
ghost use Rattle.chord_base.specs.BodyTable.{doing_of};

use crate::event::End;
use crate::meaning::Start;
use std::alloc::{AllocError, Global};

/// How a body began, and the answers that it got, oldest first.
#[derive(Drop)]
pub(crate) struct Begun {
    pub(crate) start: Start,
    pub(crate) depth: u64,
    pub(crate) answers: Vec<End>,
}

/// What a body does after a list of entries.
#[derive(Drop)]
pub(crate) enum Body {
    /// It has no entry.
    Absent,
    /// It serves a call that the list does not hold.
    Unplaced,
    /// It may make its next entry.
    Ready(Begun),
    /// It waits for the end of this call, made at a place of this depth.
    Waits(Begun, u32, u32),
    /// It has ended.
    Over(End),
}

/// An equal list of ends.
fn ends_copied(alloc: Global, ends: &[End]) -> Result<Vec<End>, AllocError>
    ensures { IfOk result (λ copies. copies.items ≡ ends.now) }
{
    let mut copies = Vec::new(alloc);
    for end in ends {
        copies.push(end.copied(alloc)?)?;
    }
    Ok(copies)
}

impl Begun {
    /// An equal one.
    fn copied(&self, alloc: Global) -> Result<Begun, AllocError>
        ensures start { IfOk result (λ it. it.start ≡ self.now.start) }
        ensures depth { IfOk result (λ it. it.depth ≡ self.now.depth) }
        ensures answers { IfOk result (λ it. it.answers.items ≡ self.now.answers.items) }
    {
        Ok(Begun {
            start: self.start.copied(alloc)?,
            depth: self.depth,
            answers: ends_copied(alloc, &self.answers)?,
        })
    }

    /// The same with one more answer.
    fn answered(&self, alloc: Global, answer: End) -> Result<Begun, AllocError>
        ensures start { IfOk result (λ it. it.start ≡ self.now.start) }
        ensures depth { IfOk result (λ it. it.depth ≡ self.now.depth) }
        ensures answers { IfOk result (λ it. it.answers.items ≡ self.now.answers.items ++ answer ∷ []) }
    {
        let mut begun = self.copied(alloc)?;
        begun.answers.push(answer)?;
        Ok(begun)
    }
}

impl Body {
    /// An equal body.
    pub(crate) fn copied(&self, alloc: Global) -> Result<Body, AllocError>
        ensures { IfOk result (λ body. doing_of body ≡ doing_of self.now) }
    {
        match self {
            Body::Absent => Ok(Body::Absent),
            Body::Unplaced => Ok(Body::Unplaced),
            Body::Ready(begun) => Ok(Body::Ready(begun.copied(alloc)?)),
            Body::Waits(begun, call, place) => Ok(Body::Waits(begun.copied(alloc)?, *call, *place)),
            Body::Over(end) => Ok(Body::Over(end.copied(alloc)?)),
        }
    }

    /// The body with one more answer.
    pub(crate) fn replied(&self, alloc: Global, answer: End) -> Result<Body, AllocError>
        ensures { IfOk result (λ body. doing_of body ≡ replied answer (doing_of self.now)) }
    {
        match self {
            Body::Ready(begun) => Ok(Body::Ready(begun.answered(alloc, answer)?)),
            Body::Waits(begun, _, _) => Ok(Body::Ready(begun.answered(alloc, answer)?)),
            _ => self.copied(alloc),
        }
    }

    /// The body after the end of the body that serves this call.
    pub(crate) fn heard(&self, alloc: Global, end: &End, call: u32) -> Result<Body, AllocError>
        ensures { IfOk result (λ body. doing_of body ≡ answered end.now (Some call) (doing_of self.now)) }
    {
        match self {
            Body::Waits(begun, waited, _) if *waited == call => {
                Ok(Body::Ready(begun.answered(alloc, end.copied(alloc)?)?))
            }
            _ => self.copied(alloc),
        }
    }

    /// The body that begins so to serve this call of the caller.
    pub(crate) fn placed(alloc: Global, start: Start, call: u32, caller: &Body) -> Body
        ensures { doing_of result ≡ placed (start_of start) call (doing_of caller.now) }
    {
        match caller {
            Body::Waits(_, waited, place) if call == *waited => Body::Ready(Begun {
                start,
                depth: *place as u64 + 1,
                answers: Vec::new(alloc),
            }),
            _ => Body::Unplaced,
        }
    }
}
