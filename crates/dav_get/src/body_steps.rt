// A body as steps of a stream.
ghost use Rattle.std.specs.Prelude.{◌≡◌, ◌<◌, ◌≤◌, ◌+◌, ◌∷◌, drop, vec_len};
ghost use Rattle.dav_model.specs.declared.ranges.Slice.{Slice};
ghost use Rattle.dav_get.specs.declared.part.BodyPart.TheVariants.{Slice as SlicePart};
ghost use Rattle.dav_body.specs.Steps.{IfItem, IfGoesOn};
ghost use Rattle.dav_get.specs.Bodies.{left_of, IsHeld};
ghost use Rattle.dav_get.specs.BodySteps.{Takes, StepGives, item_of, most_of, ends_of};

use crate::{BodyPart, GetBody};
use bytes::Bytes;
use dav_body::{BodyFault, Sender, Steps};
use dav_core::Disk;
use dav_model::Slice;
use dav_store::DavFile;
use futures::task::Poll;
use std::alloc::Global;

impl<F> GetBody<F> {
    // The next piece as bytes of its own. They are made before anything moves on, so that after want of memory the same
    // is left.
    fn take<D: Disk>(&mut self, alloc: Global, disk: &mut D) -> Result<Option<Bytes>, BodyFault>
    where
        F: DavFile<D>,
        requires { IsHeld F.view (D.state disk.old) self.old }
        ensures done { Takes F.view (D.state disk.old) self.old (item_of result) (D.state disk.new) self.new }
        ensures loan { D.loan disk.new ≡ D.loan disk.old }
    {
        if self.next >= self.parts.len() {
            return Ok(None);
        }
        match &self.parts[self.next] {
            BodyPart::Text(text) => {
                let Ok(bytes) = Bytes::copy_from_slice(alloc, text.as_slice()) else {
                    return Err(BodyFault::NoMemory);
                };
                self.pass(disk);
                Ok(Some(bytes))
            }
            BodyPart::Slice(slice) => {
                let slice = *slice;
                self.take_slice(alloc, disk, slice)
            }
        }
    }

    // The next piece, where a slice is next.
    fn take_slice<D: Disk>(
        &mut self,
        alloc: Global,
        disk: &mut D,
        slice: Slice,
    ) -> Result<Option<Bytes>, BodyFault>
    where
        F: DavFile<D>,
        requires held { IsHeld F.view (D.state disk.old) self.old }
        requires next { self.old.next < vec_len self.old.parts }
        requires slice { left_of self.old ≡ SlicePart slice ∷ drop (self.old.next + 1) self.old.parts.items }
        ensures done { Takes F.view (D.state disk.old) self.old (item_of result) (D.state disk.new) self.new }
        ensures loan { D.loan disk.new ≡ D.loan disk.old }
    {
        let Some(open) = &mut self.file else {
            unreachable!("a body with a slice has its file");
        };
        let Some(count) = open.fill(disk, slice, self.most, &mut self.buffer) else {
            self.give_up(disk);
            return Err(BodyFault::Broken);
        };
        let Ok(bytes) = Bytes::copy_from_slice(alloc, &self.buffer[..count]) else {
            return Err(BodyFault::NoMemory);
        };
        self.advance(disk, slice, count as u64);
        Ok(Some(bytes))
    }

    // One step.
    fn next_bytes<D: Disk>(
        &mut self,
        alloc: Global,
        disk: &mut D,
    ) -> Result<Option<Bytes>, BodyFault>
    where
        F: DavFile<D>,
        requires { IsHeld F.view (D.state disk.old) self.old }
        ensures done { StepGives F.view (D.state disk.old) self.old (item_of result)
            (D.state disk.new) self.new }
        ensures held { IsHeld F.view (D.state disk.new) self.new }
        ensures fewer { IfItem (item_of result) (most_of self.new < most_of self.old) }
        ensures no_more { most_of self.new ≤ most_of self.old }
        ensures same { IfGoesOn ends_of (item_of result) (most_of self.new ≡ most_of self.old) }
        ensures loan { D.loan disk.new ≡ D.loan disk.old }
    {
        self.take(alloc, disk)
    }
}

impl<F: DavFile<D>, D: Disk> Steps<D> for GetBody<F> {
    type Item = Bytes;

    type Error = BodyFault;

    ghost may_resume = { λ b d. IsHeld F.view (D.state d) b };

    ghost gives = { λ b d told c e. StepGives F.view (D.state d) b told (D.state e) c
        × (D.loan e ≡ D.loan d) };

    ghost most = { most_of };

    ghost ends_at = { ends_of };

    fn resume(
        &mut self,
        alloc: Global,
        tx: &mut Sender<Bytes, BodyFault>,
        with: &mut D,
    ) -> Poll<Result<(), BodyFault>> {
        match self.next_bytes(alloc, with) {
            Ok(None) => Poll::Ready(Ok(())),
            Ok(Some(bytes)) => {
                let _ = tx.send(bytes);
                Poll::Pending
            }
            Err(fault) => Poll::Ready(Err(fault)),
        }
    }

    fn ends(error: &BodyFault) -> bool {
        *error == BodyFault::Broken
    }
}
