ghost use Rattle.std.specs.Prelude.{◌≡◌, ◌≤◌, ◌<◌, false};
ghost use Rattle.dav_body.specs.Steps.{IsNext, IfItem, IfGoesOn};
ghost use Rattle.dav_body.specs.Streams.{IsReady, StreamGives, stream_tells};

use crate::{Sender, Steps};
use futures::task::Poll;
use std::alloc::Global;

/// A stream of the items that steps give.
#[derive(Drop)]
pub struct AsyncStream<S> {
    steps: S,
    ended: bool,
}

impl<S> AsyncStream<S> {
    /// A stream that hasn't ended, over steps that may have been made already.
    pub fn new(steps: S) -> Self
        ensures { result ≡ record { steps = steps; ended = false } }
    {
        AsyncStream {
            steps,
            ended: false,
        }
    }

    /// The next item, then None, or the error once. It is never pending. After None, and after an error that is the
    /// end, it gives None.
    pub fn poll_next<X>(
        &mut self,
        alloc: Global,
        with: &mut X,
    ) -> Poll<Option<Result<S::Item, S::Error>>>
    where
        S: Steps<X>,
        requires { S.may_resume self.old.steps with.old }
        ensures gives { IsReady result (λ told. StreamGives S.gives S.ends_at
            self.old with.old told self.new with.new) }
        ensures tells { IsReady result (λ told. IsNext S.ends_at
            (stream_tells S.tells self.old with.old) told (stream_tells S.tells self.new with.new)) }
        ensures may { S.may_resume self.new.steps with.new }
        ensures fewer { IsReady result (λ told. IfItem told (S.most self.new.steps < S.most self.old.steps)) }
        ensures no_more { S.most self.new.steps ≤ S.most self.old.steps }
        ensures same { IsReady result (λ told. IfGoesOn S.ends_at told
            (S.most self.new.steps ≡ S.most self.old.steps)) }
    {
        if self.ended {
            return Poll::Ready(None);
        }
        let mut tx = Sender::new();
        match self.steps.resume(alloc, &mut tx, with) {
            Poll::Ready(Ok(())) => {
                self.ended = true;
                Poll::Ready(None)
            }
            Poll::Ready(Err(error)) => {
                if S::ends(&error) {
                    self.ended = true;
                }
                Poll::Ready(Some(Err(error)))
            }
            Poll::Pending => match tx.take() {
                Some(item) => Poll::Ready(Some(Ok(item))),
                None => unreachable!("a step is pending with an item in the slot"),
            },
        }
    }

    /// Gives the steps back.
    pub fn into_steps(self) -> S
        ensures { result ≡ self.steps }
    {
        let AsyncStream { steps, ended: _ } = self;
        steps
    }
}
