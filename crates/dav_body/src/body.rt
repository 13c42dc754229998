ghost use Rattle.std.specs.Prelude.{◌≡◌, ◌≤◌, ◌<◌, Some, IfOk};
ghost use Rattle.std.specs.String.{string_bytes};
ghost use Rattle.dav_body.specs.Steps.{IsNext, IfItem, IfGoesOn};
ghost use Rattle.dav_body.specs.Streams.{IsReady};
ghost use Rattle.dav_body.specs.Bodies.{MayPoll, BodyGives, body_tells, body_most};

use crate::{AsyncStream, Steps};
use bytes::Bytes;
use dav_io::NoMemory;
use futures::task::Poll;
use std::alloc::Global;

/// A body: bytes that are given once, a stream, or nothing.
#[derive(Drop)]
pub struct Body<S> {
    pub inner: BodyType<S>,
}

/// What a body gives.
#[derive(Drop)]
pub enum BodyType<S> {
    /// The bytes in one piece, also where there are none; nothing once they were given.
    Bytes(Option<Bytes>),
    /// The items of a stream.
    AsyncStream(AsyncStream<S>),
    /// Nothing.
    Empty,
}

impl<S> Body<S> {
    /// A body without a piece.
    pub fn empty() -> Self
        ensures { result.inner ≡ BodyType.Empty }
    {
        Body {
            inner: BodyType::Empty,
        }
    }

    /// A body of these bytes.
    pub fn from_bytes(b: Bytes) -> Self
        ensures { result.inner ≡ BodyType.Bytes (Some b) }
    {
        Body {
            inner: BodyType::Bytes(Some(b)),
        }
    }

    /// A body of a copy of this text.
    pub fn from_str(alloc: Global, t: &str) -> Result<Self, NoMemory>
        ensures { IfOk result (λ body. body.inner ≡ BodyType.Bytes (Some t.now)) }
    {
        let bytes = Bytes::copy_from_slice(alloc, t.as_bytes())?;
        Ok(Body::from_bytes(bytes))
    }

    /// A body of this text, which isn't copied.
    pub fn from_string(t: String) -> Result<Self, NoMemory>
        ensures { IfOk result (λ body. body.inner ≡ BodyType.Bytes (Some (string_bytes t))) }
    {
        let bytes = Bytes::from_string(t)?;
        Ok(Body::from_bytes(bytes))
    }

    /// A body of what a stream gives.
    pub fn from_stream(s: AsyncStream<S>) -> Self
        ensures { result.inner ≡ BodyType.AsyncStream s }
    {
        Body {
            inner: BodyType::AsyncStream(s),
        }
    }

    /// The next piece, then None, or the error once. It is never pending. After None, and after an error that is the
    /// end, it gives None.
    pub fn poll_next<X>(
        &mut self,
        alloc: Global,
        with: &mut X,
    ) -> Poll<Option<Result<Bytes, S::Error>>>
    where
        S: Steps<X, Item = Bytes>,
        requires { MayPoll S.may_resume self.old.inner with.old }
        ensures gives { IsReady result (λ told. BodyGives S.gives S.ends_at
            self.old.inner with.old told self.new.inner with.new) }
        ensures tells { IsReady result (λ told. IsNext S.ends_at
            (body_tells S.tells self.old.inner with.old) told (body_tells S.tells self.new.inner with.new)) }
        ensures may { MayPoll S.may_resume self.new.inner with.new }
        ensures fewer { IsReady result (λ told. IfItem told
            (body_most S.most self.new.inner < body_most S.most self.old.inner)) }
        ensures no_more { body_most S.most self.new.inner ≤ body_most S.most self.old.inner }
        ensures same { IsReady result (λ told. IfGoesOn S.ends_at told
            (body_most S.most self.new.inner ≡ body_most S.most self.old.inner)) }
    {
        match &mut self.inner {
            BodyType::Bytes(bytes) => match bytes.take() {
                Some(piece) => Poll::Ready(Some(Ok(piece))),
                None => Poll::Ready(None),
            },
            BodyType::AsyncStream(stream) => stream.poll_next(alloc, with),
            BodyType::Empty => Poll::Ready(None),
        }
    }
}
