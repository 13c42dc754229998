ghost use Rattle.std.specs.Prelude.{◌≡◌, [], IfSome, OnSome};
ghost use Rattle.futures.specs.Runs.{After, Within};
ghost use Rattle.futures.specs.Poll.{IfReady, OnPending};
ghost use Rattle.futures.specs.Task.{Covers, Keeps};
ghost use Rattle.dav_body.specs.Streams.{IsReady};
ghost use Rattle.dav_body.specs.Bodies.{MayPoll, BodyGives};
ghost use Rattle.dav_body.specs.Frames.{MayGive, Framed, FrameGives};

use crate::framing::framed;
use crate::{Body, Steps};
use bytes::Bytes;
use futures::task::{Context, Poll};
use http_body::Frame;
use std::alloc::Global;

/// A body and the value with which it is polled, as a body of `http_body`: one data frame a piece.
#[derive(Drop)]
pub struct Attached<'a, S, X> {
    alloc: Global,
    body: &'a mut Body<S>,
    with: &'a mut X,
}

impl<'a, S, X> Attached<'a, S, X> {
    /// Both are lent for as long as it lives.
    pub fn new(alloc: Global, body: &'a mut Body<S>, with: &'a mut X) -> Self
        ensures body { result.body.now ≡ body.old }
        ensures with { result.with.now ≡ with.old }
        ensures same_body { result.body.ghost_name ≡ body.entry.ghost_name }
        ensures same_with { result.with.ghost_name ≡ with.entry.ghost_name }
    {
        Attached { alloc, body, with }
    }
}

impl<'a, S, X> http_body::Body for Attached<'a, S, X>
where
    S: Steps<X, Item = Bytes>,
{
    type Data = Bytes;

    type Error = S::Error;

    ghost can_poll = { λ a. MayPoll S.may_resume a.body.now.inner a.with.now };

    ghost yields = { λ a. Framed (MayGive (BodyGives S.gives S.ends_at) a.body.now.inner a.with.now) };

    /// The next piece as a data frame. It is never pending.
    fn poll_frame(&mut self, cx: &mut Context<'_>) -> Poll<Option<Result<Frame<Bytes>, S::Error>>>
        requires { MayPoll S.may_resume self.old.body.now.inner self.old.with.now }
        ensures value { IfReady result
            (Framed (MayGive (BodyGives S.gives S.ends_at) self.old.body.now.inner self.old.with.now) []) }
        ensures rest { IfReady result (λ o. IfSome o (λ x. After
            (Framed (MayGive (BodyGives S.gives S.ends_at) self.old.body.now.inner self.old.with.now)) x
            (Framed (MayGive (BodyGives S.gives S.ends_at) self.new.body.now.inner self.new.with.now)))) }
        ensures goes { IfReady result (λ o. OnSome o (MayPoll S.may_resume self.new.body.now.inner self.new.with.now)) }
        ensures again { OnPending result (MayPoll S.may_resume self.new.body.now.inner self.new.with.now) }
        ensures same { OnPending result (Within
            (Framed (MayGive (BodyGives S.gives S.ends_at) self.old.body.now.inner self.old.with.now))
            (Framed (MayGive (BodyGives S.gives S.ends_at) self.new.body.now.inner self.new.with.now))) }
        ensures registered { OnPending result (Covers cx.new (λ _. ⊥)) }
        ensures kept { Keeps cx.old cx.new }
        ensures gives { IsReady result (FrameGives (BodyGives S.gives S.ends_at)
            self.old.body.now.inner self.old.with.now self.new.body.now.inner self.new.with.now) }
        ensures may { MayPoll S.may_resume self.new.body.now.inner self.new.with.now }
        ensures same_body { self.new.body.ghost_name ≡ self.old.body.ghost_name }
        ensures same_with { self.new.with.ghost_name ≡ self.old.with.ghost_name }
    {
        let _ = cx;
        let Poll::Ready(answer) = self.body.poll_next(self.alloc, self.with) else {
            unreachable!("a poll of a body is ready");
        };
        Poll::Ready(framed(answer))
    }
}
