ghost use Rattle.std.specs.Prelude.{◌≡◌, [], IfSome, OnSome, false};
ghost use Rattle.futures.specs.Runs.{After, Within};
ghost use Rattle.futures.specs.Poll.{IfReady, OnPending};
ghost use Rattle.futures.specs.Task.{Covers, Keeps};
ghost use Rattle.dav_body.specs.Streams.{IsReady};
ghost use Rattle.dav_body.specs.Frames.{MayGive, Framed, FrameGives};
ghost use Rattle.dav_body.specs.Readers.{ReadsUntil};

use crate::framing::framed;
use bytes::Bytes;
use dav_io::Failed;
use dav_store::BodyReader;
use futures::task::{Context, Poll};
use http_body::{Body, Frame};

/// A reader of a request's body, as a body of `http_body`: one data frame a piece. After None, and after an error, it
/// gives None.
#[derive(Drop)]
pub struct StreamBody<B> {
    body: B,
    ended: bool,
}

impl<B> StreamBody<B> {
    /// A body of what a reader has still to give.
    pub fn new(body: B) -> Self
        ensures { result ≡ record { body = body; ended = false } }
    {
        StreamBody { body, ended: false }
    }

    /// Gives the reader back.
    pub fn into_inner(self) -> B
        ensures { result ≡ self.body }
    {
        let StreamBody { body, ended: _ } = self;
        body
    }

    // The next piece.
    fn next(&mut self) -> Option<Result<Bytes, Failed>>
    where
        B: BodyReader,
        ensures gives { ReadsUntil (B.state self.old.body, self.old.ended) tt result
            (B.state self.new.body, self.new.ended) tt }
        ensures loan { B.loan self.new.body ≡ B.loan self.old.body }
    {
        if self.ended {
            return None;
        }
        match self.body.next_piece() {
            Ok(Some(piece)) => Some(Ok(piece)),
            Ok(None) => {
                self.ended = true;
                None
            }
            Err(error) => {
                self.ended = true;
                Some(Err(error))
            }
        }
    }
}

impl<B: BodyReader + Drop> Body for StreamBody<B> {
    type Data = Bytes;

    type Error = Failed;

    ghost yields = { λ b. Framed (MayGive ReadsUntil (B.state b.body, b.ended) tt) };

    /// The next piece as a data frame. It is never pending.
    fn poll_frame(&mut self, cx: &mut Context<'_>) -> Poll<Option<Result<Frame<Bytes>, Failed>>>
        ensures value { IfReady result (Framed (MayGive ReadsUntil (B.state self.old.body, self.old.ended) tt) []) }
        ensures rest { IfReady result (λ o. IfSome o (λ x. After
            (Framed (MayGive ReadsUntil (B.state self.old.body, self.old.ended) tt)) x
            (Framed (MayGive ReadsUntil (B.state self.new.body, self.new.ended) tt)))) }
        ensures same { OnPending result (Within (Framed (MayGive ReadsUntil (B.state self.old.body, self.old.ended) tt))
            (Framed (MayGive ReadsUntil (B.state self.new.body, self.new.ended) tt))) }
        ensures registered { OnPending result (Covers cx.new (λ _. ⊥)) }
        ensures kept { Keeps cx.old cx.new }
        ensures gives { IsReady result (FrameGives ReadsUntil
            (B.state self.old.body, self.old.ended) tt (B.state self.new.body, self.new.ended) tt) }
        ensures loan { B.loan self.new.body ≡ B.loan self.old.body }
    {
        let _ = cx;
        Poll::Ready(framed(self.next()))
    }
}
