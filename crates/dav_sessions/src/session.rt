ghost use Rattle.std.specs.Prelude.{◌≡◌, [], Ok};

use dav_handler::{Answer, Step};
use dav_io::{Items, NoMemory};
use std::alloc::Global;

/// Steps in their order.
pub type StepList = Items<Step>;

/// Answers in the order of their steps.
pub type AnswerList = Items<Answer>;

/// Steps over a disk of its own, with the answers that it has and how it ended.
#[derive(Drop)]
pub struct Session<D> {
    pub disk: D,
    pub steps: StepList,
    pub answers: AnswerList,
    /// Want of memory where not every step was answered.
    pub outcome: Result<(), NoMemory>,
}

impl<D> Session<D> {
    /// A session that has no answers yet.
    pub fn new(alloc: Global, disk: D, steps: StepList) -> Self
        ensures { result ≡ record { disk = disk; steps = steps; answers = []; outcome = Ok tt } }
    {
        Session {
            disk,
            steps,
            answers: AnswerList::empty(alloc),
            outcome: Ok(()),
        }
    }
}
