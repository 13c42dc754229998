ghost use Rattle.std.specs.Prelude.{◌≡◌, Some, Ok, Err};
ghost use Rattle.dav_body.specs.Bodies.{MayPoll, BodyGives, body_tells};
ghost use Rattle.dav_body.specs.Collecting.{Collects, IsAllOf};

use crate::{Body, BodyFault, Steps};
use bytes::Bytes;
use dav_io::Octets;
use futures::task::Poll;
use std::alloc::Global;

/// Joins all pieces of a body up to its end, or gives the first error. After an error the pieces that were taken are
/// lost.
pub fn collect<S, X>(alloc: Global, body: &mut Body<S>, with: &mut X) -> Result<Octets, BodyFault>
where
    S: Steps<X, Item = Bytes, Error = BodyFault>,
    requires { MayPoll S.may_resume body.old.inner with.old }
    ensures joins { Collects (BodyGives S.gives S.ends_at) body.old.inner with.old result body.new.inner with.new }
    ensures tells { IsAllOf S.ends_at (body_tells S.tells body.old.inner with.old) result }
    ensures may { MayPoll S.may_resume body.new.inner with.new }
{
    let mut joined = Octets::empty(alloc);
    loop {
        match body.poll_next(alloc, with) {
            Poll::Ready(Some(Ok(piece))) => joined.extend(piece.as_slice())?,
            Poll::Ready(Some(Err(fault))) => return Err(fault),
            Poll::Ready(None) => return Ok(joined),
            Poll::Pending => unreachable!("a poll of a body is ready"),
        }
    }
}
